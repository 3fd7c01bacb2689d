//! Readers and writers that are slow, full or fail.
use std::io;
use std::io::{Read, Write};

/// A reader that gives so many bytes at a time, or at 0 each time what is left of a line, and then fails or ends. After
/// its end it fails. It counts how often it is read.
#[derive(Drop)]
pub struct PartReader<'a> {
    bytes: &'a [u8],
    at_once: usize,
    fails: bool,
    ended: bool,
    pub reads: usize,
}

impl PartReader<'_> {
    pub fn new(bytes: &[u8], at_once: usize, fails: bool) -> PartReader<'_> {
        PartReader {
            bytes,
            at_once,
            fails,
            ended: false,
            reads: 0,
        }
    }

    // How many bytes come next.
    fn next_count(&self) -> usize {
        if self.at_once > 0 {
            return self.at_once;
        }
        match self.bytes.iter().position(|byte| *byte == b'\n') {
            Some(place) => place.saturating_add(1),
            None => self.bytes.len(),
        }
    }
}

impl Read for PartReader<'_> {
    fn read(&mut self, buf: &mut [u8]) -> io::Result<usize> {
        if self.ended || (self.fails && self.bytes.is_empty()) {
            return Err(io::Error::from(io::ErrorKind::Other));
        }
        self.ended = self.bytes.is_empty();
        self.reads = self.reads.saturating_add(1);
        let count = buf.len().min(self.next_count());
        let (first, _) = buf.split_at_mut(count);
        self.bytes.read(first)
    }
}

/// A writer over memory that it holds already: it takes so many bytes, and then fails.
#[derive(Drop)]
pub struct HeldWriter {
    bytes: [u8; 128],
    len: usize,
    room: usize,
}

impl HeldWriter {
    pub fn new(room: usize) -> HeldWriter {
        HeldWriter {
            bytes: [0; 128],
            len: 0,
            room,
        }
    }

    /// What it has taken.
    pub fn written(&self) -> &[u8] {
        self.bytes.get(..self.len).unwrap_or(&[])
    }
}

impl Write for HeldWriter {
    fn write(&mut self, buf: &[u8]) -> io::Result<usize> {
        let room = self.room.min(self.bytes.len()).saturating_sub(self.len);
        let count = buf.len().min(room);
        if count == 0 {
            return Err(io::Error::from(io::ErrorKind::Other));
        }
        for place in 0..count {
            if let (Some(from), Some(to)) = (
                buf.get(place),
                self.bytes.get_mut(self.len.saturating_add(place)),
            ) {
                *to = *from;
            }
        }
        self.len = self.len.saturating_add(count);
        Ok(count)
    }

    fn flush(&mut self) -> io::Result<()> {
        Ok(())
    }
}
