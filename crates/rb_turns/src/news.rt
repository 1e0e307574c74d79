//! What there is to tell of turns.
use rb_settings::{KeepNews, SocketFault};
use rb_sockets::TableFault;
use std::io;

/// What there is to tell of turns, each once.
#[derive(Drop)]
pub struct News {
    /// The first fault of a listener, or of the wait for events: the daemon goes on, and tries it again in each turn.
    pub fault: Option<SocketFault>,
    /// That the rows that are kept could not be written, and the daemon tries again at the next change; that they are written
    /// again; that another file was in their place.
    pub keep: Option<KeepNews>,
    /// The first fault of one of the kernel's tables: while they can't be read whole, nobody registers over TCP.
    pub table: Option<TableFault>,
    /// Whether the file of the local socket is another one, or open to others: from now on the owner of whoever comes there is
    /// unknown.
    pub is_local_changed: bool,
    /// Why the abstract name of the local socket was not taken at the start, and that it was taken later.
    pub name: Option<io::Result<()>>,
}
