// A reader and a writer that fail. Of neither the bytes are known, so no clause tells what a call with them gives.
use std::io;
use std::io::{ErrorKind, Read, Write};

// Gives the bytes before each `!`, at most `step` of them at a time; at the `!` one read fails.
#[derive(Drop)]
pub(super) struct Breaking<'a> {
    pub left: &'a [u8],
    pub step: usize,
    pub kind: ErrorKind,
}

impl Read for Breaking<'_> {
    fn read(&mut self, buf: &mut [u8]) -> io::Result<usize> {
        let left = self.left;
        let whole = left.iter().take_while(|byte| **byte != b'!').count();
        if whole == 0 && !left.is_empty() {
            self.left = &left[1..];
            return Err(io::Error::from(self.kind));
        }
        let count = whole.min(self.step).min(buf.len()).min(left.len());
        buf[..count].copy_from_slice(&left[..count]);
        self.left = &left[count..];
        Ok(count)
    }
}

// Takes at most `step` bytes at a time, and `room` of them in all: then a write fails. With `interrupted` the first write is interrupted,
// and each second one after it.
#[derive(Drop)]
pub(super) struct Narrow {
    pub held: Vec<u8>,
    pub step: usize,
    pub room: usize,
    pub interrupted: bool,
    pub turn: bool,
}

impl Write for Narrow {
    fn write(&mut self, buf: &[u8]) -> io::Result<usize> {
        self.turn = !self.turn;
        if self.interrupted && self.turn {
            return Err(io::Error::from(ErrorKind::Interrupted));
        }
        let left = self.room.saturating_sub(self.held.len());
        if left == 0 {
            return Err(io::Error::from(ErrorKind::StorageFull));
        }
        let count = buf.len().min(self.step).min(left);
        self.held.extend_from_slice(&buf[..count])?;
        Ok(count)
    }

    fn flush(&mut self) -> io::Result<()> {
        Ok(())
    }
}
