//! What a start says, on standard output and before it on standard error.
use rb_address::Host;
use rb_policy::binds_loopback6;
use rb_settings::{LocalSocket, Settings, Shortage};
use std::fmt;
use std::fmt::{Display, Formatter};

/// Where the daemon of these settings listens: a line for each address, one for ::1 if that is bound as well, and one
/// for the local socket.
#[derive(Clone, Copy)]
pub(crate) struct ListeningText<'a>(pub(crate) &'a Settings<'a>);

/// A line for each host.
#[derive(Clone, Copy)]
struct HostLines<'a> {
    hosts: &'a [Host],
    port: u16,
}

/// The line of ::1, if that is bound as well.
#[derive(Clone, Copy)]
struct Loopback6Line {
    is_bound: bool,
    port: u16,
}

/// The line of the local socket, if there is one.
#[derive(Clone, Copy)]
struct LocalLine<'a>(Option<LocalSocket<'a>>);

impl Display for HostLines<'_> {
    ghost use Rattle.std.specs.Prelude.{Some};
    ghost use Rattle.std.specs.List.{flat_map};
    ghost use Rattle.rb_startup.specs.Starts.{host_line};

    ghost output = { λ lines. Some (flat_map (host_line lines.port) lines.hosts.now) };

    fn fmt<W: fmt::Write>(&self, f: &mut Formatter<W>) -> fmt::Result {
        let HostLines { hosts, port } = *self;
        for host in hosts {
            write!(f, "rpcbind: listening on {host} port {port}\n")?;
        }
        Ok(())
    }
}

impl Display for Loopback6Line {
    ghost use Rattle.std.specs.Prelude.{Some};
    ghost use Rattle.rb_startup.specs.Starts.{loopback6_line};

    ghost output = { λ line. Some (loopback6_line line.is_bound line.port) };

    fn fmt<W: fmt::Write>(&self, f: &mut Formatter<W>) -> fmt::Result {
        if !self.is_bound {
            return Ok(());
        }
        let port = self.port;
        write!(f, "rpcbind: listening on ::1 port {port}\n")
    }
}

impl Display for LocalLine<'_> {
    ghost use Rattle.std.specs.Prelude.{Some};
    ghost use Rattle.rb_startup.specs.Starts.{local_line};

    ghost output = { λ line. Some (local_line line.0) };

    fn fmt<W: fmt::Write>(&self, f: &mut Formatter<W>) -> fmt::Result {
        match self.0 {
            Some(local) => {
                let path = local.path;
                write!(f, "rpcbind: listening on {path}\n")
            }
            None => Ok(()),
        }
    }
}

impl Display for ListeningText<'_> {
    ghost use Rattle.std.specs.Prelude.{Some};
    ghost use Rattle.rb_startup.specs.Starts.{start_text};

    ghost output = { λ text. Some (start_text text.0.now) };

    fn fmt<W: fmt::Write>(&self, f: &mut Formatter<W>) -> fmt::Result {
        let settings = self.0;
        let port = settings.port;
        let hosts = HostLines {
            hosts: settings.bind.as_slice(),
            port,
        };
        let loopback6 = Loopback6Line {
            is_bound: binds_loopback6(settings.bind.as_slice(), settings.loopback6),
            port,
        };
        let local = LocalLine(settings.local);
        write!(f, "{hosts}{loopback6}{local}")
    }
}

/// That clients over UDP will be told a host of which they can make nothing, since none is given.
#[derive(Clone, Copy)]
pub(crate) struct UnannouncedLine(pub(crate) Host);

impl Display for UnannouncedLine {
    ghost use Rattle.std.specs.Prelude.{Some};
    ghost use Rattle.rb_startup.specs.Starts.{unannounced_line};

    ghost output = { λ line. Some (unannounced_line line.0) };

    fn fmt<W: fmt::Write>(&self, f: &mut Formatter<W>) -> fmt::Result {
        let host = self.0;
        write!(
            f,
            "rpcbind: no --announce: clients over UDP will be told {host}"
        )
    }
}

/// How many connections there may be, if they are fewer than were asked for.
#[derive(Clone, Copy)]
pub(crate) struct ShortageLine(pub(crate) Shortage);

impl Display for ShortageLine {
    ghost use Rattle.std.specs.Prelude.{Some};
    ghost use Rattle.rb_startup.specs.Starts.{shortage_line};

    ghost output = { λ line. Some (shortage_line line.0) };

    fn fmt<W: fmt::Write>(&self, f: &mut Formatter<W>) -> fmt::Result {
        let Shortage {
            limit,
            needed,
            asked,
            places,
        } = self.0;
        write!(
            f,
            "rpcbind: the limit of open files is {limit}, --conns {asked} needs {needed}: {places} connections at a time"
        )
    }
}
