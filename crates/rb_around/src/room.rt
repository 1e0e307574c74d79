//! What serving takes of memory.
use crate::held::HeldLinks;
use crate::tables::Tables;
use rb_address::Network;
use rb_links::Places;
use rb_policy::WaysBack;
use rb_sockets::Table;
use std::alloc::{AllocError, Global};
use std::fs::Files;

/// The longest datagram.
const LONGEST_DATAGRAM: usize = 65_536;

/// The memory with which connections and datagrams are served, and whom.
#[derive(Drop)]
pub struct Room<H: Files> {
    /// The networks whose hosts may ask.
    pub networks: Vec<Network>,
    pub places: Places,
    pub datagram: Vec<u8>,
    pub ways_back: WaysBack,
    /// Connections whose replies wait.
    pub held: HeldLinks,
    pub tables: Tables<H>,
}

impl<H: Files> Room<H> {
    /// For hosts of these networks, with this many places for connections and forwarded calls, and with room for a slice of
    /// the kernel's tables if they are read. An error if an allocation is refused.
    pub fn new(
        alloc: Global,
        networks: &[Network],
        places: usize,
        forwards: usize,
        are_tables_read: bool,
    ) -> Result<Room<H>, AllocError> {
        let networks = networks.to_vec(alloc)?;
        let mut datagram = Vec::with_capacity(alloc, LONGEST_DATAGRAM)?;
        datagram.resize(LONGEST_DATAGRAM, 0)?;
        let ways_back = WaysBack::new(alloc, forwards)?;
        let table = Table::new(alloc, are_tables_read)?;
        Ok(Room {
            networks,
            places: Places::new(alloc, places)?,
            datagram,
            ways_back,
            held: HeldLinks::new(alloc)?,
            tables: Tables::new(table),
        })
    }
}
