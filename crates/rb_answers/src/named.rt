//! The row that a SET names (RFC 1833 sections 2.2 and 3.2).
ghost use Rattle.std.specs.Prelude.{◌≡◌};
ghost use Rattle.rb_answers.specs.Answers.{row_of_mapping, row_of_rpcb};

use rb_address::{Family, Netid, Owner, Transport};
use rb_arguments::{LentRpcb, Mapping};
use rb_registry::Row;
use rb_uaddr::{AddressText, Uaddr};

/// The row that a SET of version 2 asks for, at every host.
#[tactic(auto, unfolding(crate::specs::Answers::row_of_mapping))]
pub fn row_of_mapping(owner: Owner, mapping: &Mapping) -> Option<Row>
    ensures { result ≡ row_of_mapping owner mapping.now }
{
    let port = u16::try_from(mapping.port).ok()?;
    let transport = Transport::of_protocol(mapping.prot)?;
    Some(Row {
        prog: mapping.prog,
        vers: mapping.vers,
        netid: Netid::of(transport, Family::Inet),
        owner,
        addr: Uaddr::any(port).text(),
    })
}

/// The row that a SET asks for, with the text of its address as it was given.
#[tactic(auto, unfolding(crate::specs::Answers::row_of_rpcb))]
pub fn row_of_rpcb(owner: Owner, rpcb: &LentRpcb) -> Option<Row>
    ensures { result ≡ row_of_rpcb owner rpcb.now }
{
    let netid = Netid::named(rpcb.netid())?;
    Some(Row {
        prog: rpcb.prog(),
        vers: rpcb.vers(),
        netid,
        owner,
        addr: AddressText::new(rpcb.addr()),
    })
}
