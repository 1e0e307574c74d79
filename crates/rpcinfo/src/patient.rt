//! A connection that waits no longer than it may.
ghost use Rattle.std.specs.Io.{ReadsAtMost, WritesAtMost};

use rb_plans::stream_wait;
use std::io;
use std::io::{ErrorKind, Read, Write};
use std::net::OpenStream;
use std::os::unix::net::UnixStream;
use std::rt::Clock;
use std::time::{Duration, Instant};

/// A connection to a host, or to a socket of this machine.
#[derive(Drop)]
pub enum Stream<S: Read + Write + OpenStream + Drop> {
    Host(S),
    Here(UnixStream),
}

impl<S: Read + Write + OpenStream + Drop> Stream<S> {
    fn set_waits(&self, wait: Duration) -> io::Result<()> {
        match self {
            Stream::Host(stream) => {
                stream.set_read_timeout(Some(wait))?;
                stream.set_write_timeout(Some(wait))
            }
            Stream::Here(stream) => {
                stream.set_read_timeout(Some(wait))?;
                stream.set_write_timeout(Some(wait))
            }
        }
    }

    fn receive(&mut self, buf: &mut [u8]) -> io::Result<usize>
        ensures bound { ReadsAtMost result buf.new }
    {
        match self {
            Stream::Host(stream) => stream.read(buf),
            Stream::Here(stream) => stream.read(buf),
        }
    }

    fn send(&mut self, buf: &[u8]) -> io::Result<usize>
        ensures bound { WritesAtMost result buf.now }
    {
        match self {
            Stream::Host(stream) => stream.write(buf),
            Stream::Here(stream) => stream.write(buf),
        }
    }
}

/// A connection with the moment from which its call counts. A signal that is handled while it waits is no fault of it.
#[derive(Drop)]
pub struct Patient<'a, C: Clock, S: Read + Write + OpenStream + Drop> {
    clock: &'a C,
    stream: Stream<S>,
    begun: Instant,
}

impl<'a, C: Clock, S: Read + Write + OpenStream + Drop> Patient<'a, C, S> {
    /// Returns a connection whose call counts from `begun` on.
    pub fn new(clock: &'a C, stream: Stream<S>, begun: Instant) -> Self {
        Patient {
            clock,
            stream,
            begun,
        }
    }

    /// The next wait ends with the silence, or with the whole of the call.
    fn wait_on(&self) -> io::Result<()> {
        let passed = Instant::now(self.clock)?
            .duration_since(self.begun)
            .as_millis();
        let passed = u64::try_from(passed).unwrap_or(u64::MAX);
        match stream_wait(passed) {
            Some(wait) => self.stream.set_waits(Duration::from_millis(wait)),
            None => Err(io::Error::from(ErrorKind::TimedOut)),
        }
    }
}

impl<C: Clock, S: Read + Write + OpenStream + Drop> Read for Patient<'_, C, S> {
    fn read(&mut self, buf: &mut [u8]) -> io::Result<usize> {
        for _ in 0..u64::MAX {
            self.wait_on()?;
            match self.stream.receive(buf) {
                Err(error) if error.kind() == ErrorKind::Interrupted => {}
                outcome => return outcome,
            }
        }
        Err(io::Error::from(ErrorKind::TimedOut))
    }
}

impl<C: Clock, S: Read + Write + OpenStream + Drop> Write for Patient<'_, C, S> {
    fn write(&mut self, buf: &[u8]) -> io::Result<usize> {
        self.wait_on()?;
        self.stream.send(buf)
    }

    fn flush(&mut self) -> io::Result<()> {
        Ok(())
    }
}
