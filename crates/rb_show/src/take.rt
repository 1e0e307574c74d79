//! Values that are taken from the front of a reply's data.
ghost use Rattle.std.specs.Prelude.{◌≡◌, ◌<◌, IfOk};
ghost use Rattle.rb_show.specs.Telling.{take_one};
ghost use Rattle.rb_show.specs.Fronts.{pause_of, TakesOr};

use crate::fault::InfoFault;
use rb_xdr::{Xdr, XdrFault};

/// Why no value is taken.
#[derive(Clone, Copy)]
pub(crate) enum Pause {
    /// More bytes could make one.
    More,
    /// No further bytes could, or an allocation was refused.
    Fault(InfoFault),
}

fn pause_of(fault: XdrFault) -> Pause
    ensures { result ≡ pause_of fault }
{
    match fault {
        XdrFault::Short => Pause::More,
        XdrFault::TooLong | XdrFault::BadBool | XdrFault::BadPadding => {
            Pause::Fault(InfoFault::Unreadable)
        }
    }
}

/// Takes a value from the front of the data, and says how many bytes it had.
pub(crate) fn take<T: Xdr>(bytes: &[u8]) -> Result<(T, usize), Pause>
    ensures takes { TakesOr (take_one T.reads) bytes.now result }
    ensures some { IfOk result (λ taken. 0 < taken.1) }
{
    T::laws();
    match T::take(bytes) {
        Ok(taken) => Ok(taken),
        Err(fault) => Err(pause_of(fault)),
    }
}
