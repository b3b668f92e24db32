//! A place for a device.

ghost use Rattle.std.specs.Prelude.{◌≡◌, Some};
ghost use Rattle.packed_io.specs.Devices.{place_remaining};

use std::io::{self, Read};
use std::mem;

/// A device, or none: then there is nothing to read. It counts the bytes that are read, and keeps the last error.
#[derive(Drop)]
pub(crate) struct Place<D> {
    device: Option<D>,
    bytes: u64,
    error: Option<io::Error>,
}

impl<D> Place<D> {
    pub(crate) fn of(device: D) -> Place<D>
        ensures { result.device ≡ Some device }
    {
        Place {
            device: Some(device),
            bytes: 0,
            error: None,
        }
    }

    /// Takes what is in the place, which is then empty.
    pub(crate) fn take_out(&mut self) -> Place<D>
    where
        D: Drop,
        ensures { result ≡ self.old }
    {
        let empty = Place {
            device: None,
            bytes: 0,
            error: None,
        };
        mem::replace(self, empty)
    }

    /// How many bytes were read.
    pub(crate) fn bytes_read(&self) -> u64 {
        self.bytes
    }

    /// Why the last read failed, if one did.
    pub(crate) fn error(&self) -> Option<io::Error> {
        self.error
    }
}

impl<D: Read> Read for Place<D> {
    ghost remaining = { place_remaining D.remaining };

    fn read(&mut self, buf: &mut [u8]) -> io::Result<usize> {
        let Some(device) = &mut self.device else {
            return Ok(0);
        };
        match device.read(buf) {
            Ok(count) => {
                self.bytes = self.bytes.saturating_add(count as u64);
                Ok(count)
            }
            Err(error) => {
                self.error = Some(error);
                Err(error)
            }
        }
    }
}
