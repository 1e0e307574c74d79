//! Addresses in their other form, and the time.
ghost use Rattle.rb_promises.specs.TurnedAddresses.{TextsAreTurned, FormsAreTurned, TimesAreTold};

/// UADDR2TADDR tells the transport form of the address that its text spells, and an empty one if it spells none.
/// TADDR2UADDR tells the text of the address whose transport form its bytes are, and an empty one if they are of none.
/// Both leave the ledger.
pub fn addresses_are_turned()
    ensures texts { TextsAreTurned }
    ensures forms { FormsAreTurned }
{}

/// GETTIME tells the whole seconds since the start of 1970, or the most that an unsigned int holds, and leaves the ledger.
pub fn times_are_told()
    ensures { TimesAreTold }
{}
