//! Readers that give their bytes in pieces, are interrupted or break off, and a writer that takes one
//! byte a call until its trouble.

ghost use Rattle.std.specs.Prelude.{◌<◌, Some, []};

use std::alloc::Global;
use std::io;
use std::io::{ErrorKind, Read, Write};

/// Gives its bytes, `piece` at most a call, with an interruption before each where `interrupts`.
#[derive(Drop)]
pub(super) struct Drip<'a> {
    pub(super) rest: &'a [u8],
    pub(super) piece: usize,
    interrupts: bool,
    is_due: bool,
    ghost gives: { 0 < piece },
}

impl<'a> Drip<'a> {
    pub(super) fn new(text: &'a [u8], piece: usize, interrupts: bool) -> Drip<'a>
        requires { 0 < piece }
    {
        Drip {
            rest: text,
            piece,
            interrupts,
            is_due: interrupts,
        }
    }
}

impl Read for Drip<'_> {
    ghost remaining = { λ d. Some d.rest.now };

    fn read(&mut self, buf: &mut [u8]) -> io::Result<usize> {
        if self.is_due {
            self.is_due = false;
            return Err(io::Error::from(ErrorKind::Interrupted));
        }
        self.is_due = self.interrupts;
        let n = self.piece.min(buf.len()).min(self.rest.len());
        buf[..n].copy_from_slice(&self.rest[..n]);
        self.rest = &self.rest[n..];
        Ok(n)
    }
}

/// Interrupted `left` times, and then at its end.
#[derive(Drop)]
pub(super) struct Interrupted {
    pub(super) left: u32,
    pub(super) calls: u32,
}

impl Read for Interrupted {
    ghost remaining = { λ _. Some [] };

    fn read(&mut self, _buf: &mut [u8]) -> io::Result<usize> {
        self.calls = self.calls.saturating_add(1);
        if self.left == 0 {
            return Ok(0);
        }
        self.left -= 1;
        Err(io::Error::from(ErrorKind::Interrupted))
    }
}

/// Gives its bytes, and then fails.
#[derive(Drop)]
pub(super) struct Broken<'a>(pub(super) &'a [u8]);

impl Read for Broken<'_> {
    ghost remaining = { λ b. Some b.0.now };

    fn read(&mut self, buf: &mut [u8]) -> io::Result<usize> {
        let n = buf.len().min(self.0.len());
        if n == 0 {
            return Err(io::Error::from(ErrorKind::ConnectionReset));
        }
        buf[..n].copy_from_slice(&self.0[..n]);
        self.0 = &self.0[n..];
        Ok(n)
    }
}

/// Gives its bytes, and then that many spaces.
#[derive(Drop)]
pub(super) struct Padded<'a> {
    pub(super) rest: &'a [u8],
    pub(super) spaces: usize,
}

impl Read for Padded<'_> {
    fn read(&mut self, buf: &mut [u8]) -> io::Result<usize> {
        if self.rest.is_empty() {
            let n = buf.len().min(self.spaces);
            buf[..n].fill(b' ');
            self.spaces -= n;
            return Ok(n);
        }
        let n = buf.len().min(self.rest.len());
        buf[..n].copy_from_slice(&self.rest[..n]);
        self.rest = &self.rest[n..];
        Ok(n)
    }
}

/// How a writer fails.
#[derive(Clone, Copy, Drop, PartialEq, Eq)]
pub(super) enum Trouble {
    None,
    /// At this write, counted from 1.
    At(u32, ErrorKind),
    /// A write takes no byte.
    Full,
    Flush,
}

/// Takes one byte a call, until its trouble.
#[derive(Drop)]
pub(super) struct Narrow {
    pub(super) taken: Vec<u8>,
    pub(super) calls: u32,
    trouble: Trouble,
}

impl Write for Narrow {
    ghost contents = { λ w. Some w.taken.items };

    fn write(&mut self, buf: &[u8]) -> io::Result<usize> {
        self.calls = self.calls.saturating_add(1);
        match self.trouble {
            Trouble::At(call, kind) if call == self.calls => return Err(io::Error::from(kind)),
            Trouble::Full => return Ok(0),
            _ => {}
        }
        let Some(first) = buf.first() else {
            return Ok(0);
        };
        self.taken.push(*first)?;
        Ok(1)
    }

    fn flush(&mut self) -> io::Result<()> {
        match self.trouble {
            Trouble::Flush => Err(io::Error::from(ErrorKind::BrokenPipe)),
            _ => Ok(()),
        }
    }
}

pub(super) fn writer_with(alloc: Global, trouble: Trouble) -> Narrow {
    Narrow {
        taken: Vec::new(alloc),
        calls: 0,
        trouble,
    }
}
