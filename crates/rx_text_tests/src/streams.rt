//! Streams that count how often they were asked, and fail.

use std::alloc::Global;
use std::io::{Error, ErrorKind, Read, Write};

/// A reader that gives so many bytes at a time, and fails when it is asked for the time of this number, from 0.
#[derive(Drop)]
pub(super) struct Source<'a> {
    /// What is not read yet.
    pub(super) bytes: &'a [u8],
    pub(super) piece: usize,
    pub(super) asked: u64,
    pub(super) fails_at: u64,
}

impl<'a> Source<'a> {
    pub(super) fn new(bytes: &'a [u8], piece: usize, fails_at: u64) -> Source<'a> {
        Source {
            bytes,
            piece,
            asked: 0,
            fails_at,
        }
    }
}

impl Read for Source<'_> {
    fn read(&mut self, buf: &mut [u8]) -> std::io::Result<usize> {
        let asked = self.asked;
        self.asked = asked.saturating_add(1);
        if asked == self.fails_at {
            return Err(Error::from(ErrorKind::Other));
        }
        let end = self.bytes.len().min(buf.len()).min(self.piece);
        let (piece, rest) = self.bytes.split_at(end);
        buf[..end].copy_from_slice(piece);
        self.bytes = rest;
        Ok(end)
    }
}

/// A writer that takes so many bytes at a time and `room` in all; then it fails, or takes none where it is stuck.
#[derive(Drop)]
pub(super) struct Narrow {
    /// What it took.
    pub(super) taken: Vec<u8>,
    pub(super) piece: usize,
    pub(super) room: usize,
    pub(super) is_stuck: bool,
    pub(super) asked: u64,
}

impl Narrow {
    pub(super) fn new(alloc: Global, piece: usize, room: usize, is_stuck: bool) -> Narrow {
        Narrow {
            taken: Vec::new(alloc),
            piece,
            room,
            is_stuck,
            asked: 0,
        }
    }
}

impl Write for Narrow {
    fn write(&mut self, buf: &[u8]) -> std::io::Result<usize> {
        self.asked = self.asked.saturating_add(1);
        let end = buf.len().min(self.room).min(self.piece);
        if end == 0 && !self.is_stuck {
            return Err(Error::from(ErrorKind::Other));
        }
        self.taken.extend_from_slice(&buf[..end])?;
        self.room -= end;
        Ok(end)
    }

    fn flush(&mut self) -> std::io::Result<()> {
        Ok(())
    }
}
