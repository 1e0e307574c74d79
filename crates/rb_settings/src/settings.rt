//! What a daemon is started with.
ghost use Rattle.std.specs.Prelude.{◌≡◌};
ghost use Rattle.rb_settings.specs.Settings.{path_of};

use crate::few::Few;
use rb_address::{Host, Network};
use rb_answers::{Announced, Listener, Reserved, Terms};
use rb_model::Limits;
use rb_policy::log_choice::Logged;
use rb_policy::{Rate, announced_inet, announced_inet6};
use rb_uaddr::{AddressText, MAX_KEPT};

/// A stream socket in the file system.
#[derive(Clone, Copy)]
pub struct LocalSocket<'a> {
    /// At most 107 bytes.
    pub path: &'a str,
    /// The mode of its file: whoever may write to it may connect. If that is root and its owner alone, and was so from
    /// the start, callers are root.
    pub mode: u32,
}

/// What a daemon is started with. A field has the name of its option of `serve`.
#[derive(Drop)]
pub struct Settings<'a> {
    /// The hosts to listen on over TCP and UDP; :: is every host of both families, and goes with sockets of 0.0.0.0. Forwarded
    /// calls go out from the first of their family.
    pub bind: Few<Host>,
    /// The networks whose hosts may ask, beside this machine; with none everybody may.
    pub from: Few<Network>,
    /// Whether to listen on ::1 also.
    pub loopback6: bool,
    /// The local socket to listen on also, if any.
    pub local: Option<LocalSocket<'a>>,
    /// Whether callers are believed what they claim: who is local is by its address, and whose it is by its credential.
    pub believe_claims: bool,
    /// Of each family the host that is told if none was asked and a program listens on every one, if one is given.
    pub announce: Announced,
    /// The port of TCP and UDP.
    pub port: u16,
    /// How many connections, rows and forwarded calls there may be.
    pub limits: Limits,
    /// On which terms callers are served.
    pub terms: Terms,
    /// Whose programs are.
    pub reserve: Reserved,
    /// How many datagrams of strangers are served in a second, if that is limited.
    pub udp_rate: Option<Rate>,
    /// The most bytes of a record of its events, its last line among them; 0 records nothing. It takes that much
    /// memory.
    pub record_limit: usize,
    /// The path of the file in which the rows are kept that were set, if they are.
    pub keep: Option<&'a str>,
    /// What it has lines of in its log.
    pub log: Logged,
    /// The limit of open files, which is the system's.
    pub open_files: u64,
}

impl Settings<'_> {
    ghost use Rattle.std.specs.Prelude.{◌≡◌};
    ghost use Rattle.rb_settings.specs.Settings.{announced_by, listener_of};

    /// Which families are served, and the host of each that is told if none was asked.
    pub fn announced(&self) -> Announced
        ensures { result ≡ announced_by self.now }
    {
        let Announced { inet, inet6 } = self.announce;
        let hosts = self.bind.as_slice();
        Announced {
            inet: announced_inet(inet, hosts),
            inet6: announced_inet6(inet6, hosts, self.loopback6),
        }
    }

    /// Where the core is told that it listens, and on which terms it serves there.
    pub fn listener(&self) -> Listener
        ensures { result ≡ listener_of self.now }
    {
        Listener {
            announced: self.announced(),
            port: self.port,
            local: path_of(&self.local),
            terms: self.terms,
            reserved: self.reserve.copied(),
        }
    }
}

/// The path of the local socket, as the row of it has it.
fn path_of(local: &Option<LocalSocket<'_>>) -> Option<AddressText>
    ensures { result ≡ path_of local.now }
{
    match local {
        Some(local) => {
            let path = local.path.as_bytes();
            if path.len() <= MAX_KEPT {
                Some(AddressText::new(path))
            } else {
                None
            }
        }
        None => None,
    }
}
