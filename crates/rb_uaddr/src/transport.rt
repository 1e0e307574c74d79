//! The transport form of an address, as a netbuf has it (RFC 1833 section 2.1).
ghost use Rattle.std.specs.Prelude.{◌≡◌, ◌≤◌, length, Some};
ghost use Rattle.std.specs.Result.{result_ok};
ghost use Rattle.rb_uaddr.specs.Uaddr.{transport_of, from_transport};

use crate::address::{NotAnAddress, Uaddr, port_bytes, port_from};
use arrayvec::ArrayVec;
use std::marker::Model;

/// The most bytes that a transport form has.
pub const MAX_TRANSPORT: usize = 28;

const IPV4_FAMILY: u8 = 2;

const IPV6_FAMILY: u8 = 10;

/// The transport form of an address. For IPv4 the bytes 2 and 0, the port and the host, each with
/// its most significant byte first, and eight zeros; for IPv6 the bytes 10 and 0, the port, four
/// zeros, the host and four zeros. RFC 1833 section 2.1 leaves this form to the transport; it is
/// this project's own.
#[derive(Drop)]
pub struct TransportForm {
    bytes: ArrayVec<u8, MAX_TRANSPORT>,
}

impl Model for TransportForm {
    ghost use Rattle.std.specs.Prelude.{List, ℕ};

    ghost Value = { List ℕ };

    ghost view = { λ f. f.bytes.items };
}

impl TransportForm {
    fn of(form: &[u8]) -> TransportForm
        requires { length form.now ≤ MAX_TRANSPORT }
        ensures { result ≡ form.now }
    {
        let mut bytes = ArrayVec::new();
        bytes.try_extend_from_slice(form).unwrap();
        TransportForm { bytes }
    }

    /// The bytes of the form.
    pub fn as_slice(&self) -> &[u8]
        ensures value { result.now ≡ self.now }
        ensures short { length result.now ≤ MAX_TRANSPORT }
    {
        self.bytes.as_slice()
    }
}

impl Uaddr {
    /// The transport form of the address.
    pub fn to_transport(&self) -> TransportForm
        ensures form { result ≡ transport_of self.now }
        ensures read { from_transport result ≡ Some self.now }
        ensures short { length result ≤ MAX_TRANSPORT }
    {
        match self {
            Uaddr::V4(host, port) => TransportForm::of(&ipv4_form(host, *port)),
            Uaddr::V6(host, port) => TransportForm::of(&ipv6_form(host, *port)),
        }
    }

    /// The address of this transport form: 16 bytes that begin with 2 and 0 (IPv4), or 28 that begin with 10 and 0
    /// (IPv6). Bytes that `to_transport` writes as zeros may have any value. Anything else is `NotAnAddress`.
    #[tactic(auto, unfolding(crate::specs::Uaddr::from_transport))]
    pub fn from_transport(form: &[u8]) -> Result<Uaddr, NotAnAddress>
        ensures { result_ok result ≡ from_transport form.now }
    {
        match form {
            [IPV4_FAMILY, 0, p1, p2, h1, h2, h3, h4, unread @ ..] if unread.len() == 8 => {
                Ok(Uaddr::V4([*h1, *h2, *h3, *h4], port_from([*p1, *p2])))
            }
            [IPV6_FAMILY, 0, p1, p2, _, _, _, _, behind @ ..] if behind.len() == 20 => {
                let mut host = [0; 16];
                host.copy_from_slice(&behind[..16]);
                Ok(Uaddr::V6(host, port_from([*p1, *p2])))
            }
            _ => Err(NotAnAddress),
        }
    }
}

#[tactic(auto, unfolding(crate::specs::Uaddr::transport_of, crate::specs::Uaddr::port_bytes))]
fn ipv4_form(host: &[u8; 4], port: u16) -> [u8; 16]
    ensures form { result ≡ transport_of (Uaddr.V4 host.now port) }
    ensures read { from_transport result ≡ Some (Uaddr.V4 host.now port) }
{
    let [h1, h2, h3, h4] = *host;
    let [p1, p2] = port_bytes(port);
    let mut form = [0; 16];
    form[..8].copy_from_slice(&[IPV4_FAMILY, 0, p1, p2, h1, h2, h3, h4]);
    form
}

fn ipv6_form(host: &[u8; 16], port: u16) -> [u8; MAX_TRANSPORT]
    ensures form { result ≡ transport_of (Uaddr.V6 host.now port) }
    ensures read { from_transport result ≡ Some (Uaddr.V6 host.now port) }
{
    let [p1, p2] = port_bytes(port);
    let mut form = [0; MAX_TRANSPORT];
    form[..4].copy_from_slice(&[IPV6_FAMILY, 0, p1, p2]);
    form[8..24].copy_from_slice(host);
    form
}
