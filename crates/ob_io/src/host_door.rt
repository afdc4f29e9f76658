//! The door of the real thing: connections over TCP, on loopback. How often an accept is
//! tried, how long a connection may stall, and how much of a shut one is read and for how long
//! may be changed here; how slowly one may send, in `pace`.

ghost use Rattle.std.specs.Prelude.{◌≡◌, ◌≤◌, ◌<◌, true, length, None, Ok, IfOk, OnErr, IsErr, is_err};
ghost use Rattle.ob_io.specs.Cause.{HasCause};
ghost use Rattle.ob_io.specs.Bytes.{Reads};
ghost use Rattle.ob_io.specs.Faults.{count_after};

use crate::door::Door;
use crate::fault::{Failed, counted};
use crate::pace::Pace;
use std::io::{Read, Write};
use std::marker::Model;
use std::net::{Ipv4Addr, Net, Shutdown, SocketAddr, TcpListener, TcpStream};
use std::time::{Duration, Instant};
use std::{io, rt};

/// How often one `next` tries to accept a connection.
const TRIES: u32 = 8;

/// How many seconds a read or a write may wait for the peer.
const PATIENCE: u64 = 5;

/// How many seconds one read of a connection that is being closed may wait.
const LAST_PATIENCE: u64 = 1;

/// How many seconds all reads of a connection that is being closed may take.
const LAST_SECONDS: u64 = 5;

/// How many reads of what still comes are made before a connection is closed.
const LAST_READS: u32 = 1_024;

/// How many bytes one read asks of the host at most.
const READ_SIZE: usize = 8_192;

/// A door at a port of loopback. Each error of the host is counted, a wait of more than five
/// seconds too, and a connection that sends too slowly; an error of a read or a write ends its
/// connection.
#[derive(Drop)]
pub struct TcpDoor<R: Net<Listener = TcpListener, Stream = TcpStream> + rt::Clock + Drop> {
    rt: Option<R>,
    address: Option<SocketAddr>,
    listener: Option<TcpListener>,
    stream: Option<TcpStream>,
    pace: Pace,
    waiting: Option<TcpStream>,
    next_faults: u64,
    faults: u64,
}

impl<R: Net<Listener = TcpListener, Stream = TcpStream> + rt::Clock + Drop> Model for TcpDoor<R> {
    ghost use Rattle.ob_io.specs.Host.{HostConnections};

    ghost Value = { HostConnections };

    ghost view = { λ d. record { next_faults = d.next_faults; faults = d.faults } };
}

impl<R: Net<Listener = TcpListener, Stream = TcpStream> + rt::Clock + Drop> TcpDoor<R> {
    /// A door at this port of 127.0.0.1, which is bound at the first `next`. Port 0 is one
    /// that the host picks.
    pub fn new(rt: R, port: u16) -> TcpDoor<R>
        ensures { result ≡ record { next_faults = 0; faults = 0 } }
    {
        TcpDoor {
            rt: Some(rt),
            address: Some(SocketAddr::from((Ipv4Addr::LOCALHOST, port))),
            listener: None,
            stream: None,
            pace: Pace::new(),
            waiting: None,
            next_faults: 0,
            faults: 0,
        }
    }

    /// A door with this one connection, whose reads no clock times. It takes no memory.
    pub fn over(stream: TcpStream) -> TcpDoor<R>
        ensures { result ≡ record { next_faults = 0; faults = 0 } }
    {
        TcpDoor {
            rt: None,
            address: None,
            listener: None,
            stream: None,
            pace: Pace::new(),
            waiting: Some(stream),
            next_faults: 0,
            faults: 0,
        }
    }

    /// A door with this one connection, whose reads this clock times. It takes no memory.
    pub fn timed(rt: R, stream: TcpStream) -> TcpDoor<R>
        ensures { result ≡ record { next_faults = 0; faults = 0 } }
    {
        let mut door = TcpDoor::over(stream);
        door.rt = Some(rt);
        door
    }

    /// Binds the port, where that wasn't done.
    fn bind(&mut self) -> Result<(), Failed>
        ensures cause { HasCause self.old.next_faults self.new.next_faults (IsErr result) }
        ensures count { self.new.faults ≡ self.old.faults }
    {
        if self.listener.is_some() {
            return Ok(());
        }
        let (Some(rt), Some(address)) = (&self.rt, self.address) else {
            return Ok(());
        };
        match TcpListener::bind(rt, address) {
            Ok(listener) => {
                self.listener = Some(listener);
                Ok(())
            }
            Err(_) => self.fail_next(),
        }
    }

    /// Makes the connection the current one.
    fn admit(&mut self, stream: TcpStream) -> Result<bool, Failed>
        ensures answer { result ≡ Ok true }
        ensures same { self.new ≡ self.old }
    {
        self.stream = Some(stream);
        self.pace = Pace::new();
        Ok(true)
    }

    /// Reads from the current connection. An error of the host is counted, and a connection
    /// that sends too slowly.
    fn read_paced(&mut self, bytes: &mut [u8]) -> Result<usize, Failed>
        ensures fits { IfOk result (λ n. n ≤ length bytes.old) }
        ensures counted { self.new ≡ record self.old { faults = count_after (is_err result) self.old.faults } }
        ensures cause { HasCause self.old.faults self.new.faults (IsErr result) }
    {
        let Some(stream) = &mut self.stream else {
            return Ok(0);
        };
        let began = moment(&self.rt);
        let count = counted(stream.read(bytes), &mut self.faults)?;
        let took = time_since(began, &self.rt).unwrap_or(Duration::ZERO);
        if self.pace.falls_short(count, took) {
            self.faults = self.faults.saturating_add(1);
            return Err(Failed);
        }
        Ok(count)
    }

    /// Counts an error of `next`.
    fn fail_next<T>(&mut self) -> Result<T, Failed>
        ensures answer { IsErr result }
        ensures cause { HasCause self.old.next_faults self.new.next_faults (IsErr result) }
        ensures count { self.new.faults ≡ self.old.faults }
    {
        self.next_faults = self.next_faults.saturating_add(1);
        Err(Failed)
    }
}

impl<R: Net<Listener = TcpListener, Stream = TcpStream> + rt::Clock + Drop> Door for TcpDoor<R> {
    ghost coming = { λ _. None };

    ghost left = { λ _. None };

    ghost written = { λ _. None };

    ghost next_faults = { λ d. d.next_faults };

    ghost faults = { λ d. d.faults };

    fn next(&mut self) -> Result<bool, Failed>
        ensures cause { HasCause self.old.next_faults self.new.next_faults (IsErr result) }
        ensures count { self.new.faults ≡ self.old.faults }
    {
        self.shut();
        if let Some(stream) = self.waiting.take() {
            return match prepared(stream) {
                Ok(stream) => self.admit(stream),
                Err(_) => self.fail_next(),
            };
        }
        self.bind()?;
        let Some(listener) = &self.listener else {
            return Ok(false);
        };
        match accepted(listener, &mut self.next_faults) {
            Ok(stream) => self.admit(stream),
            Err(failed) => Err(failed),
        }
    }

    /// The host may write anywhere in what it is handed, so it is handed an array and
    /// not the room.
    fn read(&mut self, room: &mut [u8]) -> Result<usize, Failed>
        ensures reads { IfOk result (λ n. Reads None None room.old room.new n) }
        ensures failed { OnErr result (room.new ≡ room.old) }
        ensures counted { self.new ≡ record self.old { faults = count_after (is_err result) self.old.faults } }
        ensures cause { HasCause self.old.faults self.new.faults (IsErr result) }
    {
        let mut bytes = [0u8; READ_SIZE];
        let limit = room.len().min(READ_SIZE);
        match self.read_paced(&mut bytes[..limit]) {
            Ok(count) => {
                room[..count].copy_from_slice(&bytes[..count]);
                Ok(count)
            }
            Err(failed) => {
                self.stream = None;
                Err(failed)
            }
        }
    }

    fn write(&mut self, piece: &[u8]) -> Result<usize, Failed>
        ensures takes { IfOk result (λ n. (n ≤ length piece.now) × (0 < length piece.now → 0 < n)) }
        ensures counted { self.new ≡ record self.old { faults = count_after (is_err result) self.old.faults } }
        ensures cause { HasCause self.old.faults self.new.faults (IsErr result) }
    {
        let count = match &mut self.stream {
            Some(stream) => counted(stream.write(piece), &mut self.faults)?,
            None => 0,
        };
        if count == 0 && !piece.is_empty() {
            self.faults = self.faults.saturating_add(1);
            self.stream = None;
            return Err(Failed);
        }
        Ok(count)
    }

    fn shut(&mut self)
        ensures { self.new ≡ self.old }
    {
        if let Some(stream) = self.stream.take() {
            close(stream, &self.rt);
        }
    }
}

/// The next connection of the listener, ready to be read. Each try that fails is counted.
fn accepted(listener: &TcpListener, faults: &mut u64) -> Result<TcpStream, Failed>
    ensures { HasCause faults.old faults.new (IsErr result) }
{
    for tried in 0..TRIES {
        if let Ok((stream, _)) = listener.accept()
            && let Ok(ready) = prepared(stream)
        {
            return Ok(ready);
        }
        *faults = faults.saturating_add(1);
    }
    Err(Failed)
}

/// The connection, whose writes are sent at once and which doesn't wait for long.
fn prepared(stream: TcpStream) -> io::Result<TcpStream> {
    let patience = Some(Duration::from_secs(PATIENCE));
    stream.set_nodelay(true)?;
    stream.set_read_timeout(patience)?;
    stream.set_write_timeout(patience)?;
    Ok(stream)
}

/// The moment of the clock, where there is one and it can be read.
fn moment<R: rt::Clock>(clock: &Option<R>) -> Option<Instant> {
    Instant::now(clock.as_ref()?).ok()
}

/// How much time went by since a moment of the clock, where that can be told.
fn time_since<R: rt::Clock>(began: Option<Instant>, clock: &Option<R>) -> Option<Duration> {
    Some(moment(clock)?.duration_since(began?))
}

/// Closes a connection so that the peer gets the last reply: one that is closed while bytes
/// still come is reset, and what was written to it may be lost. So writing ends first, and
/// what still comes is read, up to a bound of reads and of time.
fn close<R: rt::Clock>(stream: TcpStream, clock: &Option<R>) {
    if stream.shutdown(Shutdown::Write).is_ok() {
        read_out(stream, clock);
    }
}

/// Reads what still comes, up to a bound of reads and of time. A read that no clock times
/// counts as the longest.
fn read_out<R: rt::Clock>(mut stream: TcpStream, clock: &Option<R>) {
    let longest = Duration::from_secs(LAST_PATIENCE);
    let mut left = Duration::from_secs(LAST_SECONDS);
    let mut bytes = [0u8; READ_SIZE];
    for _ in 0..LAST_READS {
        let began = moment(clock);
        if stream.set_read_timeout(Some(left.min(longest))).is_err()
            || !matches!(stream.read(&mut bytes), Ok(1..))
        {
            return;
        }
        left = left.saturating_sub(time_since(began, clock).unwrap_or(longest));
    }
}
