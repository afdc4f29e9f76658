//! Hosts as a real one is not to be.

use std::alloc::Allocator;
use std::cell::Cell;
use std::fmt::Display;
use std::io::{self, BufRead, ErrorKind, Input, Lines};
use std::net::{Net, SocketAddr, TcpListener, TcpStream};
use std::rt::Clock;
use std::time::Duration;

/// A host whose clock gives the first second of the year 10000, whose input is three
/// bytes, and which prints nothing.
pub(crate) struct Odd;

impl Clock for Odd {
    fn monotonic(&self) -> io::Result<Duration> {
        Ok(Duration::ZERO)
    }

    fn since_1970(&self) -> io::Result<Duration> {
        Ok(Duration::from_secs(253_402_300_800))
    }
}

impl Input for Odd {
    type Reader = &'static [u8];

    fn read_line<A: Allocator + Clone>(&self, buf: &mut String<A>) -> io::Result<usize> {
        self.reader().read_line(buf)
    }

    fn lines<A: Allocator>(&self, alloc: A) -> Lines<&'static [u8], A> {
        self.reader().lines(alloc)
    }

    fn reader(&self) -> &'static [u8] {
        b"abc"
    }
}

impl Print for Odd {
    fn print<D: Display + Drop>(&self, _value: D) -> io::Result<()> {
        Ok(())
    }

    fn println<D: Display + Drop>(&self, _value: D) -> io::Result<()> {
        Ok(())
    }

    fn write_all(&self, _bytes: &[u8]) -> io::Result<()> {
        Ok(())
    }

    fn write_some(&self, _bytes: &[u8]) -> io::Result<usize> {
        Ok(0)
    }
}

/// A host whose clock goes on by ten seconds each time that it is read, and that has no
/// network.
#[derive(Drop)]
pub(crate) struct Slow {
    seconds: Cell<u64>,
}

impl Slow {
    /// A host whose clock wasn't read yet.
    pub(crate) fn new() -> Slow {
        Slow {
            seconds: Cell::new(0),
        }
    }
}

impl Clock for Slow {
    fn monotonic(&self) -> io::Result<Duration> {
        self.seconds.set(self.seconds.get().saturating_add(10));
        Ok(Duration::from_secs(self.seconds.get()))
    }

    fn since_1970(&self) -> io::Result<Duration> {
        self.monotonic()
    }
}

impl Net for Slow {
    type Stream = TcpStream;

    type Listener = TcpListener;

    fn bind(&self, _addr: SocketAddr) -> io::Result<TcpListener> {
        Err(io::Error::from(ErrorKind::Unsupported))
    }

    fn connect(&self, _addr: SocketAddr) -> io::Result<TcpStream> {
        Err(io::Error::from(ErrorKind::Unsupported))
    }
}
