//! Where a broadcast goes.
use crate::files::text_of;
use rb_plans::{Fault, LONGEST_ROUTES, are_read_whole, read_networks};
use rb_show::InfoFault;
use std::alloc::Global;
use std::net::Ipv4Addr;
use std::rt::Files;

/// Where Linux lists the routes of this machine (proc(5)).
const ROUTES: &str = "/proc/net/route";

/// A list of one network.
fn one(alloc: Global, network: Ipv4Addr) -> Result<Vec<[u8; 4]>, Fault> {
    let mut networks = Vec::new(alloc);
    match networks.push(network.octets()) {
        Ok(()) => Ok(networks),
        Err(_) => Err(Fault::Info(InfoFault::Memory)),
    }
}

/// The broadcast addresses of the networks of this machine; 255.255.255.255 alone if none is known. Of
/// routes that are read in part none is asked.
fn networks_here<F: Files>(alloc: Global, files: &F) -> Result<Vec<[u8; 4]>, Fault> {
    let routes = text_of(alloc, files, ROUTES, LONGEST_ROUTES as u64 + 1).map_err(Fault::Info)?;
    if !are_read_whole(&routes) {
        return Err(Fault::TooManyRoutes);
    }
    match read_networks(alloc, &routes) {
        Ok(networks) if networks.is_empty() => one(alloc, Ipv4Addr::BROADCAST),
        Ok(networks) => Ok(networks),
        Err(_) => Err(Fault::Info(InfoFault::Memory)),
    }
}

/// Where a broadcast goes: to the network that a word names, or to each of this machine.
pub fn networks_of<F: Files>(
    alloc: Global,
    files: &F,
    named: Option<Ipv4Addr>,
) -> Result<Vec<[u8; 4]>, Fault> {
    match named {
        Some(network) => one(alloc, network),
        None => networks_here(alloc, files),
    }
}
