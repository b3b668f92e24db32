//! A place for a reader.

ghost use Rattle.run_io.specs.Readers.{slot_remaining};

use std::io::{self, Read};

/// A reader, or none: then there is nothing to read.
#[derive(Drop)]
pub(crate) struct Slot<D> {
    pub(crate) device: Option<D>,
}

impl<D: Read> Read for Slot<D> {
    ghost remaining = { slot_remaining D.remaining };

    fn read(&mut self, buf: &mut [u8]) -> io::Result<usize> {
        match &mut self.device {
            Some(device) => device.read(buf),
            None => Ok(0),
        }
    }
}
