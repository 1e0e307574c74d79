//! What is asked for.
use rb_address::{Netid, Transport};
use rb_uaddr::Uaddr;

/// What is listed of a host's portmapper.
#[derive(Clone, Copy)]
pub enum Listing {
    /// The rows of version 3.
    Rows,
    /// The same without addresses and owners.
    Short,
    /// A line for each program, of the rows of version 3.
    Summary,
    /// The mappings of version 2.
    Table,
    /// The statistics of version 4.
    Statistics,
}

/// Where the replies come from.
#[derive(Clone, Copy)]
pub enum Source {
    /// This machine.
    Here,
    /// One reply in hexadecimal text, on standard input.
    Input,
    /// The host that the first word names.
    Named,
}

/// How the place of a program is found whose procedure 0 is called.
#[derive(Clone, Copy)]
pub enum Way {
    /// By GETPORT of version 2, on the host that the first word names.
    Getport(Transport),
    /// By GETADDR of version 3, on that host, over the transport of this netid. It is not `local`.
    Getaddr(Netid),
    /// By nothing: it is this port of that host.
    Port(Transport, u16),
    /// By nothing: it is this address, over the transport of this netid. It is not `local`.
    Address(Netid, Uaddr),
}

/// What a command line asks for.
#[derive(Clone, Copy)]
pub enum Plan {
    /// A list of a portmapper.
    Show(Listing, Source),
    /// The addresses of a program and a version.
    Entries(Source, u32, u32),
    /// Procedure 0 of a program, in one version or in each.
    Ping(Way, u32, Option<u32>),
    /// UNSET of a program and a version on this machine, on one netid or on all.
    Delete(Option<Netid>, u32, u32),
    /// Procedure 0 of a program and a version, by the portmappers of a network.
    Broadcast(u32, u32),
}

/// How a list is written, if it is not in columns alone.
#[derive(Clone, Copy)]
pub enum Layout {
    /// With the names of programs.
    Names,
    /// As an object of JSON on each line.
    Json,
}

/// The words of a command line, read.
#[derive(Clone, Copy)]
pub struct Request {
    /// The portmapper's port, 111 if none is given.
    pub port: u16,
    /// The user id of the AUTH_SYS credential of each call; AUTH_NONE without one.
    pub uid: Option<u32>,
    /// What is asked for.
    pub plan: Plan,
    /// How a list is written; in columns alone without one.
    pub layout: Option<Layout>,
}
