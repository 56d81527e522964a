//! A reader and a writer of one byte at a time, which fail where they are told to, a writer that holds back, and one that counts.

use std::io::{self, Read, Write};

/// A reader that gives one byte at a time, and fails at a read.
#[derive(Drop)]
pub(crate) struct Slow<'a> {
    pub(crate) rest: &'a [u8],
    pub(crate) reads: usize,
    pub(crate) fails_at: usize,
}

impl Read for Slow<'_> {
    fn read(&mut self, buf: &mut [u8]) -> io::Result<usize> {
        self.reads = self.reads.wrapping_add(1);
        if self.reads == self.fails_at {
            return Err(io::Error::from(io::ErrorKind::Interrupted));
        }
        let Some((first, rest)) = self.rest.split_first() else {
            return Ok(0);
        };
        if buf.is_empty() {
            return Ok(0);
        }
        buf[0] = *first;
        self.rest = rest;
        Ok(1)
    }
}

/// A writer that takes one byte at a time, and fails at a write.
#[derive(Drop)]
pub(crate) struct Narrow {
    pub(crate) taken: Vec<u8>,
    pub(crate) writes: usize,
    pub(crate) fails_at: usize,
}

impl Write for Narrow {
    fn write(&mut self, buf: &[u8]) -> io::Result<usize> {
        self.writes = self.writes.wrapping_add(1);
        if self.writes == self.fails_at || buf.is_empty() {
            return Ok(0);
        }
        self.taken.push(buf[0])?;
        Ok(1)
    }

    fn flush(&mut self) -> io::Result<()> {
        Ok(())
    }
}

/// A writer that keeps what it is given, and hands it on at a flush.
#[derive(Drop)]
pub(crate) struct Holding {
    pub(crate) held: Vec<u8>,
    pub(crate) told: Vec<u8>,
}

impl Write for Holding {
    fn write(&mut self, buf: &[u8]) -> io::Result<usize> {
        self.held.extend_from_slice(buf)?;
        Ok(buf.len())
    }

    fn flush(&mut self) -> io::Result<()> {
        self.told.extend_from_slice(&self.held)?;
        self.held.clear();
        Ok(())
    }
}

/// A writer that counts what it is given, and keeps nothing.
#[derive(Drop)]
pub(crate) struct Counting {
    pub(crate) longest: usize,
    pub(crate) all: usize,
}

impl Write for Counting {
    fn write(&mut self, buf: &[u8]) -> io::Result<usize> {
        self.longest = self.longest.max(buf.len());
        self.all = self.all.wrapping_add(buf.len());
        Ok(buf.len())
    }

    fn flush(&mut self) -> io::Result<()> {
        Ok(())
    }
}
