//! The addresses of hosts.
use rb_plans::{Fault, look_up_fault};
use rb_show::InfoFault;
use std::alloc::Global;
use std::net::{IpAddr, Ipv4Addr, Net, SocketAddr, ToSocketAddrs};

/// The addresses of a host with this port, in the order that the system's lookup gives them.
pub fn addresses_of<N: Net>(
    alloc: Global,
    net: &N,
    host: &str,
    port: u16,
) -> Result<Vec<SocketAddr>, Fault> {
    let found = match (host, port).to_socket_addrs(net) {
        Ok(found) => found,
        Err(error) => return Err(look_up_fault(error.kind())),
    };
    match found.collect(alloc) {
        Ok(addresses) => Ok(addresses),
        Err(_) => Err(Fault::Info(InfoFault::Memory)),
    }
}

/// This machine.
pub fn here(port: u16) -> SocketAddr {
    SocketAddr::new(IpAddr::V4(Ipv4Addr::LOCALHOST), port)
}
