//! The networks of this machine, as Linux lists its routes in /proc/net/route (proc(5)): a line each, of fields with tabs
//! between them.
ghost use Rattle.std.specs.Prelude.{◌≡◌, length, nat_le, IfOk, OnOk};
ghost use Rattle.rb_plans.specs.Networks.{longest_routes, AddsNetworks, pieces_of, route_address, broadcast_of, network_of, networks_in_line, networks_in, has_gone_out};
ghost use Rattle.rb_show.specs.Summary.{borrowed_texts};

use std::alloc::{AllocError, Global};

/// The most bytes of the routes that are read.
pub const LONGEST_ROUTES: usize = 1_048_576;

/// Returns whether a text of routes is read whole, and is not longer than what is read.
pub fn are_read_whole(routes: &[u8]) -> bool
    ensures { result ≡ nat_le (length routes.now) longest_routes }
{
    routes.len() <= LONGEST_ROUTES
}

/// The pieces of a text between bytes of this value.
fn pieces_of<'a>(alloc: Global, text: &'a [u8], between: u8) -> Result<Vec<&'a [u8]>, AllocError>
    ensures { IfOk result (λ pieces. borrowed_texts pieces.items ≡ pieces_of between text.now) }
{
    text.split(|byte| *byte == between).collect(alloc)
}

/// The IPv4 address that a field has: eight hexadecimal digits, the octets from the last to the first.
fn route_address(field: &[u8]) -> Option<[u8; 4]>
    ensures { result ≡ route_address field.now }
{
    let mut octets = [0; 4];
    match hex::decode_to_slice(field, &mut octets) {
        Ok(()) => {
            octets.reverse();
            Some(octets)
        }
        Err(_) => None,
    }
}

/// The broadcast address of a network: each bit of its hosts is set (RFC 919 section 7, RFC 922 section 7).
fn broadcast_of(network: [u8; 4], mask: [u8; 4]) -> [u8; 4]
    ensures { result ≡ broadcast_of network mask }
{
    let [a, b, c, d] = network;
    let [e, f, g, h] = mask;
    [a | !e, b | !f, c | !g, d | !h]
}

/// The broadcast address of the network that these fields of a route lead to; `None` if this machine is not on it,
/// or there are too few.
fn network_of(fields: &[&[u8]]) -> Option<[u8; 4]>
    ensures { result ≡ network_of (borrowed_texts fields.now) }
{
    let [_, network, _, flags, _, _, _, mask, ..] = fields else {
        return None;
    };
    if *flags != b"0001".as_slice() {
        return None;
    }
    Some(broadcast_of(route_address(network)?, route_address(mask)?))
}

/// Adds the broadcast address of the network that a line's route leads to.
fn push_line(alloc: Global, line: &[u8], networks: &mut Vec<[u8; 4]>) -> Result<(), AllocError>
    ensures { OnOk result (AddsNetworks networks.old networks.new (networks_in_line line.now)) }
{
    let fields = pieces_of(alloc, line, b'\t')?;
    if let Some(network) = network_of(&fields) {
        networks.push(network)?;
    }
    Ok(())
}

/// Whether a broadcast has gone out, if this is what became of it at each of its networks: to one of them at least.
pub fn has_gone_out(sent: &[bool]) -> bool
    ensures { result ≡ has_gone_out sent.now }
{
    sent.iter().any(|is_sent| *is_sent)
}

/// Reads the broadcast addresses of the networks that this machine is on, from the text of its routes, in their order. A
/// line that is no route, or one through a gateway or to one host, has none. `AllocError` if an allocation is refused.
pub fn read_networks(alloc: Global, routes: &[u8]) -> Result<Vec<[u8; 4]>, AllocError>
    ensures { IfOk result (λ networks. networks.items ≡ networks_in routes.now) }
{
    let mut networks = Vec::new(alloc);
    let lines = pieces_of(alloc, routes, b'\n')?;
    for line in &lines {
        push_line(alloc, line, &mut networks)?;
    }
    Ok(networks)
}
