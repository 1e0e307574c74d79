//! Rows as items of lists.
ghost use Rattle.std.specs.Prelude.{◌≡◌};
ghost use Rattle.rb_answers.specs.Results.{entry_of};

use crate::netids::{family_text, proto_text, semantics_of};
use crate::shown::shown_text;
use rb_arguments::Entry;
use rb_registry::Row;
use rb_uaddr::Hosts;
use rb_xdr::Text;

/// An item of GETADDRLIST, with these hosts in place of 0.0.0.0 and ::.
pub fn entry_of(hosts: &Hosts, row: &Row) -> Entry
    ensures { result ≡ entry_of hosts.now row.now }
{
    Entry {
        maddr: shown_text(hosts, row),
        netid: Text::new(row.netid.text().as_bytes()),
        semantics: semantics_of(row.netid),
        protofmly: Text::new(family_text(row.netid)),
        proto: Text::new(proto_text(row.netid)),
    }
}
