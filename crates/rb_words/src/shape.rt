//! The words by their shape: flags, options with their values, and the rest.
ghost use Rattle.std.specs.Prelude.{◌≡◌};

use crate::plan::Layout;
use crate::services::Service;

/// A flag names a form; at most one stands on a command line.
#[derive(Clone, Copy)]
pub enum Flag {
    /// `-p`
    Table,
    /// `-s`
    Short,
    /// `--summary`
    Summary,
    /// `-l`
    List,
    /// `-m`
    Statistics,
    /// `-t`
    Tcp,
    /// `-u`
    Udp,
    /// `-d`
    Delete,
    /// `-b`
    Broadcast,
}

/// What stands on a command line, unread.
#[derive(Clone, Copy)]
pub struct Shape<'s, 'a, 'n> {
    /// The flags, in their order.
    pub flags: &'s [Flag],
    /// `--port`
    pub port: Option<&'a str>,
    /// `--uid`
    pub uid: Option<&'a str>,
    /// `-n`
    pub target: Option<&'a str>,
    /// `-T`
    pub netid: Option<&'a str>,
    /// `-a`
    pub address: Option<&'a str>,
    /// `--local`
    pub local: Option<&'a str>,
    /// `--broadcast`
    pub broadcast: Option<&'a str>,
    /// `--names`, `--json`
    pub layouts: &'s [Layout],
    /// The words that belong to no option, in their order.
    pub words: &'s [&'a str],
    /// The names by which programs may be given.
    pub services: &'n [Service],
}
