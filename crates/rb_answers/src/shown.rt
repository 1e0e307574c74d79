//! What is shown of a row's address.
ghost use Rattle.std.specs.Prelude.{◌≡◌, ◌≤◌, length};
ghost use Rattle.rb_xdr.specs.Xdr.{IsContent};
ghost use Rattle.rb_answers.specs.Answers.{shown_text, text_told, shown_port, is_replaced, is_told_anew};
ghost use Rattle.rb_uaddr.specs.Uaddr.{text_of};

use crate::netids::address_in;
use rb_registry::Row;
use rb_uaddr::{Hosts, MAX_KEPT, Uaddr};
use rb_xdr::Text;

const ANY_HOST: [u8; 4] = [0; 4];

const ANY_HOST6: [u8; 16] = [0; 16];

/// Whether the IPv6 host is :: and another stands in for it.
fn is_replaced(hosts: &Hosts, own: [u8; 16]) -> bool
    ensures { result ≡ is_replaced hosts.now own }
{
    own == ANY_HOST6 && hosts.inet6 != ANY_HOST6
}

/// Whether another host stands in for that of the address.
fn is_told_anew(hosts: &Hosts, address: Uaddr) -> bool
    ensures { result ≡ is_told_anew hosts.now address }
{
    match address {
        Uaddr::V4(own, _) => own == ANY_HOST,
        Uaddr::V6(own, _) => is_replaced(hosts, own),
    }
}

/// The address that a list of addresses has in place of the row's, if a host of its family stands in for 0.0.0.0 or ::.
#[tactic(auto, unfolding(crate::specs::Answers::shown_text))]
pub fn address_anew(hosts: &Hosts, row: &Row) -> Option<Uaddr>
    ensures { text_told result row.now ≡ shown_text hosts.now row.now }
{
    match address_in(row.netid, &row.addr) {
        Some(address) if is_told_anew(hosts, address) => Some(address.merge(hosts)),
        _ => None,
    }
}

/// The same bytes, as what a string may hold.
fn as_content(bytes: &[u8]) -> &[u8]
    requires { length bytes.now ≤ MAX_KEPT }
    ensures same { result.now ≡ bytes.now }
    ensures content { IsContent 128 result.now }
{
    bytes
}

/// The row's address as it was set.
pub fn own_text(row: &Row) -> &[u8]
    ensures same { result.now ≡ row.now.addr }
    ensures content { IsContent 128 result.now }
{
    as_content(row.addr.as_slice())
}

/// The text of the row's address as a list of addresses has it.
pub fn shown_text(hosts: &Hosts, row: &Row) -> Text<MAX_KEPT>
    ensures { result ≡ shown_text hosts.now row.now }
{
    match address_anew(hosts, row) {
        Some(address) => text_of(address),
        None => Text::new(own_text(row)),
    }
}

/// The text of a universal address.
pub fn text_of(address: Uaddr) -> Text<MAX_KEPT>
    ensures { result ≡ text_of address }
{
    Text::new(address.text().as_slice())
}

/// The port of the row's address, or 0 if it has none.
#[tactic(auto, unfolding(crate::specs::Answers::shown_port))]
pub fn shown_port(row: &Row) -> u32
    ensures { result ≡ shown_port row.now }
{
    address_in(row.netid, &row.addr).map_or(0, |address| u32::from(address.port()))
}
