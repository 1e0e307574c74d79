//! The daemon's own sockets. Each kind is a type of its own, so that nothing goes out on the wrong one.
ghost use Rattle.std.specs.Prelude.{◌≡◌, ⊤, false};
ghost use Rattle.rb_sockets.specs.Events.{shown_by, family_at, MayBeShown};
ghost use Rattle.rb_sockets.specs.Wanted.{are_wanted};

use crate::calls::{CallSocket, CallSockets, ForwardSocket, ForwardSockets};
use crate::follow::{AddressNews, Follower};
use crate::handed::Handed;
use crate::listener::{Listener, free_door, note_all_told};
use crate::local::{AbstractName, LocalListener};
use crate::user_namespace::unmapped;
use crate::watched::{Watched, put, put_at};
use mio::net::UnixListener;
use mio::{Registry, Token};
use rb_address::{Family, Host, Peer, Source};
use rb_arrivals::{Datagrams, Shown};
use rb_descriptors::least_free;
use rb_policy::machine::AddressChange;
use rb_policy::{
    ANY, Beliefs, LOOPBACK, LOOPBACK6, binds_every_inet, binds_loopback6, forwards_inet,
    forwards_inet6, has_every_host, has_every_inet, ip_of, takes_abstract_name,
};
use rb_settings::{BindFault, LocalSocket, MOST, Settings, Step};
use std::alloc::{AllocError, Global};
use std::fs::{File, Files};
use std::io;
use std::io::{ErrorKind, Read};
use std::net::{Net, SocketAddr};
use std::os::fd::AsRawFd;

/// The keys of events: those of connections are the numbers of their places, at most 256.
const FORWARDS: usize = 1024;

const FORWARDS6: usize = 1025;

const CALLS: usize = 2048;

const LISTENERS: usize = 4096;

/// More bytes than a turn needs of the stack.
const STACK: usize = 49_152;

/// The sockets of the daemon itself.
#[derive(Drop)]
pub struct Sockets {
    /// Where calls come in as datagrams.
    pub calls: CallSockets,
    /// Where forwarded calls go out.
    pub forwards: ForwardSockets,
    /// Where connections come in: over TCP one for each host, then the local socket.
    pub listeners: Vec<Watched<Listener>>,
    /// Whether one of them may have to be served, or have something to tell: if not, no turn looks at them.
    pub(crate) may_want: bool,
    /// Whether callers are believed what they claim.
    pub are_claims_believed: bool,
    /// The abstract name of the local socket, if it is to be held.
    abstract_name: Option<AbstractName>,
    /// Which addresses are followed, if some are.
    follower: Option<Follower>,
    port: u16,
    beliefs: Beliefs,
    ghost noted: { may_want ≡ false → are_wanted forwards calls listeners.items ≡ false },
}

impl Sockets {
    ghost use Rattle.std.specs.Prelude.{map, Some, IfOk};
    ghost use Rattle.std.specs.Option.{option_and_then};
    ghost use Rattle.rb_sockets.specs.Arrivals.{next_name_try};
    ghost use Rattle.rb_sockets.specs.News.{is_local_changed, has_news_of, next_look, has_news, told_of, HasTriedIfAny};
    ghost use Rattle.rb_sockets.specs.Room.{free_place_in, TakesCallsAt, TakesConnections};

    /// Sockets at all that the settings name: those that were handed over, and others that are bound. Else the first step that
    /// failed: `Memory` if an allocation is refused, else `Socket`. The local socket comes last: a second daemon ends at a port
    /// that is in use, and leaves the file alone.
    pub fn bind<R: Files + Net>(
        alloc: Global,
        rt: &R,
        settings: &Settings<'_>,
        handed: Handed,
    ) -> Result<Sockets, BindFault> {
        let mut inet = Inet::bind(alloc, rt, settings, handed)?;
        let forwards = bind_forwards(rt, settings)?;
        let abstract_name = inet.bind_local(alloc, rt, settings)?;
        let Inet {
            listeners,
            calls: all,
            port,
            beliefs,
            ..
        } = inet;
        Ok(Sockets {
            calls: CallSockets { all },
            forwards,
            listeners,
            may_want: true,
            are_claims_believed: beliefs.claims,
            abstract_name,
            follower: None,
            port,
            beliefs,
        })
    }

    /// The number of descriptors of the process that are not for connections: the system gives the least free number, so
    /// when the last of these sockets got its own, all below that were taken, unless it was handed over. One is for the abstract
    /// name, if that is yet to be taken.
    pub fn count_descriptors(&self, net: &impl Net) -> u64 {
        let mut last = 0;
        let ForwardSockets { inet, inet6 } = &self.forwards;
        for forwards in [inet, inet6].into_iter().flatten() {
            last = last.max(forwards.socket.as_raw_fd());
        }
        for calls in &self.calls.all {
            last = last.max(calls.socket.as_raw_fd());
        }
        for listener in &self.listeners {
            last = last.max(listener.socket.as_raw_fd());
        }
        let mut to_come = 0;
        if let Some(name) = &self.abstract_name {
            match &name.held {
                Some(held) => last = last.max(held.as_raw_fd()),
                None => to_come = 1,
            }
        }
        let taken = u64::try_from(last).unwrap_or(0).saturating_add(1);
        taken.max(least_free(net)).saturating_add(to_come)
    }

    /// Writes to as much of the stack as a turn needs, so that its memory is the process's from here on: an array
    /// there is handed to a read. The array goes when this returns, so it must not be inlined.
    #[inline(never)]
    pub fn write_stack<R: Files>(&self, rt: &R) {
        if let Ok(mut file) = File::open(rt, "/proc/self/uid_map") {
            let _ = file.read(&mut [0; STACK]);
        }
    }

    /// The moment at which the abstract name is tried again, in milliseconds, if it is to be held and is not.
    pub fn next_name_try(&self) -> Option<u64>
        ensures { result ≡ option_and_then next_name_try self.now.abstract_name }
    {
        self.abstract_name.as_ref()?.next_try()
    }

    /// Tries again to take the abstract name, if that is due at this moment, in milliseconds. What is to be told of it, once each:
    /// why the try at the start failed, and that it was taken after that.
    pub fn take_name<R: Files + Net>(&mut self, rt: &R, now: u64) -> Option<io::Result<()>>
        ensures { HasTriedIfAny now self.old.abstract_name self.new.abstract_name result }
    {
        match &mut self.abstract_name {
            Some(name) => name.take(rt, now),
            None => None,
        }
    }

    /// Addresses are followed from here on, for which places are taken. An error if an allocation is refused.
    pub fn follow_by(&mut self, follower: Follower) -> Result<(), AllocError>
        ensures { IfOk result (λ done. self.new.follower ≡ Some follower) }
    {
        self.may_want = true;
        self.calls.all.reserve(2 * MOST)?;
        self.listeners.reserve(MOST)?;
        self.follower = Some(follower);
        Ok(())
    }

    /// The moment at which is next found out which addresses there are, in milliseconds, if they are followed.
    pub fn next_look(&self) -> Option<u64>
        ensures { result ≡ next_look self.now }
    {
        match &self.follower {
            Some(follower) => Some(follower.next_look()),
            None => None,
        }
    }

    // FOLLOW-1: With `--bind` of `all` or of an interface the addresses are found out every 10 seconds: one that has come is
    // listened on, and one that has gone no more. None ends the daemon.
    /// Listens on an address that has come, or no more on one that has gone, if addresses are followed, and it was found out by
    /// this moment, in milliseconds. What is to be told; nothing once all is done.
    pub fn follow<R: Files + Net>(
        &mut self,
        rt: &R,
        registry: &Registry,
        now: u64,
    ) -> Option<AddressNews> {
        for _ in 0..=MOST {
            let change = self.follower.as_mut()?.next_change(rt, now);
            let news = self.change(rt, registry, change);
            if news.is_some() || change.is_none() {
                return news;
            }
        }
        None
    }

    /// Makes a change, if there is one. What is to be told.
    fn change<R: Net>(
        &mut self,
        rt: &R,
        registry: &Registry,
        change: Option<AddressChange>,
    ) -> Option<AddressNews> {
        match change {
            Some(AddressChange::Leave(host)) => {
                self.leave(rt, registry, host);
                self.follower.as_mut()?.note_gone(host);
                Some(AddressNews::Gone(host))
            }
            Some(AddressChange::Listen(host)) => {
                let listening = self.listen(rt, registry, host);
                self.follower.as_mut()?.note_tried(host, listening)
            }
            None => self.follower.as_mut()?.take_news(),
        }
    }

    /// Closes the sockets of a host.
    fn leave<R: Net>(&mut self, rt: &R, registry: &Registry, host: Host) {
        self.may_want = true;
        for calls in &mut self.calls.all {
            if calls.socket.bound() == host {
                calls.socket.close();
            }
        }
        for listener in &mut self.listeners {
            if listener.socket.is_at(host) {
                listener.socket = Listener::Closed;
            }
        }
        self.leave_forwards(rt, registry, host);
    }

    // FOLLOW-3: Calls that were forwarded from an address that is gone go out from the loopback of its family.
    /// If calls are forwarded from a host, they are from the loopback from here on. Those that wait for an answer get none.
    fn leave_forwards<R: Net>(&mut self, rt: &R, registry: &Registry, host: Host) {
        let family = host.family();
        self.may_want = true;
        if let Some(forwards) = self.forwards.of_mut(family) {
            if forwards.socket.is_at(host) {
                if let Ok(socket) = forwards_from_loopback(rt, registry, family) {
                    *forwards = Watched::new(socket);
                }
            }
        }
    }

    /// Listens on a host too, in the place of one that is listened on no more, if there is one.
    fn listen<R: Net>(&mut self, rt: &R, registry: &Registry, host: Host) -> Result<(), BindFault>
        ensures calls { IfOk result (λ done. TakesCallsAt host self.old self.new) }
        ensures listener { IfOk result (λ done. TakesConnections self.old self.new) }
    {
        let mut listener = Listener::bind_tcp(rt, None, host, self.port, self.beliefs)?;
        let mut calls = CallSocket::bind(rt, None, host, self.port, false, self.beliefs)?;
        let place = self.free_place();
        let door = free_door(&self.listeners);
        check_shown(calls.register(registry, token_of(Shown::Calls(place))))?;
        check_shown(listener.register(registry, token_of(Shown::Listener(door))))?;
        self.may_want = true;
        put_at(&mut self.calls.all, place, calls)?;
        put_at(&mut self.listeners, door, listener)?;
        Ok(())
    }

    /// The place of a socket whose host was left before the last reading, or the next one: by that time no call that came on it
    /// and was forwarded waits any more, whose reply would go out on the new one.
    fn free_place(&self) -> usize
        ensures { result ≡ free_place_in self.now }
    {
        match &self.follower {
            Some(follower) => self.calls.free_place(follower.left()),
            None => self.calls.all.len(),
        }
    }

    /// Whether it was found since the last question that the local socket is root's no longer.
    pub fn take_local_change(&mut self) -> bool
        ensures untold { result ≡ is_local_changed self.old }
        ensures told { self.new.listeners.items ≡ map told_of self.old.listeners.items }
    {
        let is_changed = self.is_local_changed();
        self.may_want = true;
        note_all_told(self.listeners.as_mut_slice());
        is_changed
    }

    /// Whether `take_local_change`, or at this moment, in milliseconds, `take_name` or `follow` has something to tell or to do.
    pub fn has_news(&self, now: u64) -> bool
        ensures { result ≡ has_news now self.now }
    {
        let is_read = self.next_look().is_some_and(|next| next <= now);
        is_read || self.has_name_news(now) || self.is_local_changed()
    }

    fn has_name_news(&self, now: u64) -> bool
        ensures { result ≡ has_news_of now self.now.abstract_name }
    {
        match &self.abstract_name {
            Some(name) => name.has_news(now),
            None => false,
        }
    }

    /// Their events are shown from here on.
    pub fn register(&mut self, registry: &Registry) -> io::Result<()> {
        self.may_want = true;
        let ForwardSockets { inet, inet6 } = &mut self.forwards;
        if let Some(inet) = inet {
            let inet_token = token_of(Shown::Forwards(Family::Inet));
            inet.socket.register(registry, inet_token)?;
        }
        if let Some(inet6) = inet6 {
            let inet6_token = token_of(Shown::Forwards(Family::Inet6));
            inet6.socket.register(registry, inet6_token)?;
        }
        for (i, calls) in self.calls.all.iter_mut().enumerate() {
            calls.socket.register(registry, token_of(Shown::Calls(i)))?;
        }
        for (i, listener) in self.listeners.iter_mut().enumerate() {
            listener
                .socket
                .register(registry, token_of(Shown::Listener(i)))?;
        }
        Ok(())
    }

    /// What an event with this token shows.
    pub fn shown_by(token: Token) -> Shown
        ensures { result ≡ shown_by token.0 }
    {
        let key = token.0;
        if key < FORWARDS {
            Shown::Connection(key)
        } else if key < CALLS {
            Shown::Forwards(family_at(key))
        } else if key < LISTENERS {
            Shown::Calls(key - CALLS)
        } else {
            Shown::Listener(key - LISTENERS)
        }
    }
}

// What is believed of the system: a socket that is handed a datagram sends these bytes there.
impl Datagrams for Sockets {
    ghost sends = { λ old datagram new. ⊤ };

    fn reply(&mut self, socket: usize, to: Source, reply: &[u8]) {
        if let (Some(calls), Source::Inet(peer)) = (self.calls.all.get(socket), to) {
            calls.socket.reply(reply, peer);
        }
    }

    fn call(&mut self, target: Peer, call: &[u8]) {
        if let Some(forwards) = self.forwards.of(target.family()) {
            forwards.socket.call(call, target);
        }
    }
}

/// The token under which events of this are shown.
fn token_of(shown: Shown) -> Token
    ensures { MayBeShown shown → shown_by result.0 ≡ shown }
{
    match shown {
        Shown::Connection(place) => Token(place),
        Shown::Forwards(Family::Inet) => Token(FORWARDS),
        Shown::Forwards(Family::Inet6) => Token(FORWARDS6),
        Shown::Calls(i) => Token(CALLS.saturating_add(i)),
        Shown::Listener(i) => Token(LISTENERS.saturating_add(i)),
    }
}

/// The family of the targets of the socket for forwarded calls that has this key.
fn family_at(key: usize) -> Family
    ensures { result ≡ family_at key }
{
    if key == FORWARDS6 {
        Family::Inet6
    } else {
        Family::Inet
    }
}

/// The sockets as they are bound: of each host one of TCP and one of UDP, then the local socket.
#[derive(Drop)]
struct Inet {
    listeners: Vec<Watched<Listener>>,
    calls: Vec<Watched<CallSocket>>,
    port: u16,
    beliefs: Beliefs,
    /// What was handed over, and is not taken yet.
    handed: Handed,
}

impl Inet {
    /// Binds all that the settings name but the local socket, and that was not handed over.
    fn bind<R: Files + Net>(
        alloc: Global,
        rt: &R,
        settings: &Settings<'_>,
        handed: Handed,
    ) -> Result<Inet, BindFault> {
        let most = settings.bind.len().saturating_add(3);
        let mut inet = Inet {
            listeners: Vec::with_capacity(alloc, most)?,
            calls: Vec::with_capacity(alloc, most)?,
            port: settings.port,
            beliefs: Beliefs {
                claims: settings.believe_claims,
                unmapped: unmapped(rt),
            },
            handed,
        };
        inet.bind_all(rt, settings)?;
        Ok(inet)
    }

    /// Binds the local socket, if one is asked for, and tries to take its abstract name, if that is to be held.
    fn bind_local<R: Files + Net>(
        &mut self,
        alloc: Global,
        rt: &R,
        settings: &Settings<'_>,
    ) -> Result<Option<AbstractName>, BindFault> {
        let Some(local) = &settings.local else {
            return Ok(None);
        };
        let listener = bind_local(alloc, rt, self.handed.take_local(), local, self.beliefs)?;
        put(&mut self.listeners, listener)?;
        if takes_abstract_name(self.port) {
            Ok(Some(AbstractName::new(rt)))
        } else {
            Ok(None)
        }
    }

    /// Binds all of the hosts, of TCP before UDP.
    fn bind_all<R: Net>(&mut self, rt: &R, settings: &Settings<'_>) -> Result<(), BindFault> {
        let hosts = settings.bind.as_slice();
        let is_every_inet = binds_every_inet(hosts);
        let is_loopback6 = binds_loopback6(hosts, settings.loopback6);
        for host in hosts {
            self.bind_tcp(rt, *host)?;
        }
        if is_every_inet {
            self.bind_tcp(rt, Host::V4(ANY))?;
        }
        if is_loopback6 {
            self.bind_tcp(rt, Host::V6(LOOPBACK6))?;
        }
        for host in hosts {
            self.bind_udp(rt, *host)?;
        }
        if is_every_inet {
            self.bind_udp(rt, Host::V4(ANY))?;
        }
        if is_loopback6 {
            self.bind_udp(rt, Host::V6(LOOPBACK6))?;
        }
        self.bind_loopbacks(rt, hosts)
    }

    /// Binds UDP sockets at 127.0.0.1 and ::1 beside those of every host, at which programs of this machine register. A socket of
    /// every host is bound before it shares its port, and none shares it in the end: so no other program has a part of it.
    fn bind_loopbacks<R: Net>(&mut self, rt: &R, hosts: &[Host]) -> Result<(), BindFault> {
        if !has_every_inet(hosts) {
            return Ok(());
        }
        self.share(true)?;
        self.bind_loopback(rt, Host::V4(LOOPBACK))?;
        if has_every_host(hosts) {
            self.bind_loopback(rt, Host::V6(LOOPBACK6))?;
        }
        self.share(false)
    }

    /// Binds a UDP socket there beside that of every host, unless the machine does not have the host.
    fn bind_loopback(&mut self, rt: &impl Net, host: Host) -> Result<(), BindFault> {
        let handed = self.handed.take_udp(host);
        match CallSocket::bind(rt, handed, host, self.port, true, self.beliefs) {
            Ok(calls) => put(&mut self.calls, calls),
            Err(BindFault::Socket(fault)) if is_no_host(&fault.error) => Ok(()),
            Err(fault) => Err(fault),
        }
    }

    /// Whether all UDP sockets share their ports from here on.
    fn share(&self, shares: bool) -> Result<(), BindFault> {
        for calls in &self.calls {
            if let Err(error) = calls.socket.share(shares) {
                let address = SocketAddr::new(ip_of(calls.socket.bound()), self.port);
                return Err(BindFault::Socket(Step::BindUdp(address).failed(error)));
            }
        }
        Ok(())
    }

    fn bind_tcp(&mut self, rt: &impl Net, host: Host) -> Result<(), BindFault> {
        let handed = self.handed.take_tcp(host);
        let listener = Listener::bind_tcp(rt, handed, host, self.port, self.beliefs)?;
        put(&mut self.listeners, listener)
    }

    fn bind_udp(&mut self, rt: &impl Net, host: Host) -> Result<(), BindFault> {
        let handed = self.handed.take_udp(host);
        let calls = CallSocket::bind(rt, handed, host, self.port, false, self.beliefs)?;
        put(&mut self.calls, calls)
    }
}

/// Whether the system says that the machine does not have the host of an address.
pub(crate) fn is_no_host(error: &io::Error) -> bool {
    error.kind() == ErrorKind::AddrNotAvailable
}

fn bind_forwards<R: Net>(rt: &R, settings: &Settings<'_>) -> Result<ForwardSockets, BindFault> {
    let hosts = settings.bind.as_slice();
    let most = settings.limits.forwards;
    Ok(ForwardSockets {
        inet: forwards_from(rt, forwards_inet(hosts, most))?,
        inet6: forwards_from(rt, forwards_inet6(hosts, settings.loopback6, most))?,
    })
}

/// A socket for forwarded calls, if they go out from a host.
fn forwards_from<R: Net>(
    rt: &R,
    host: Option<Host>,
) -> Result<Option<Watched<ForwardSocket>>, BindFault> {
    match host {
        Some(host) => Ok(Some(Watched::new(ForwardSocket::bind(rt, host)?))),
        None => Ok(None),
    }
}

/// A socket for calls that are forwarded from the loopback of a family, whose events are shown.
fn forwards_from_loopback<R: Net>(
    rt: &R,
    registry: &Registry,
    family: Family,
) -> Result<ForwardSocket, BindFault> {
    let loopback = match family {
        Family::Inet => Host::V4(LOOPBACK),
        Family::Inet6 => Host::V6(LOOPBACK6),
    };
    let mut socket = ForwardSocket::bind(rt, loopback)?;
    check_shown(socket.register(registry, token_of(Shown::Forwards(family))))?;
    Ok(socket)
}

fn bind_local<R: Files + Net>(
    alloc: Global,
    rt: &R,
    handed: Option<UnixListener>,
    local: &LocalSocket<'_>,
    beliefs: Beliefs,
) -> Result<Listener, BindFault> {
    match LocalListener::bind(alloc, rt, handed, local, beliefs)? {
        Ok(listener) => Ok(Listener::Local(listener)),
        Err(error) => Err(BindFault::Socket(Step::BindLocal.failed(error))),
    }
}

/// Whether the events of a socket are shown.
fn check_shown(registered: io::Result<()>) -> Result<(), BindFault> {
    match registered {
        Ok(()) => Ok(()),
        Err(error) => Err(BindFault::Socket(Step::Prepare.failed(error))),
    }
}
