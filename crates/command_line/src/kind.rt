//! The kinds of files that are no MRT dumps, by their first bytes.

ghost use Rattle.std.specs.Prelude.{◌≤◌};

use mrt_frame::{HEADER_SIZE, Header, is_within_limits};

/// How many of the first bytes are kept: those of a record's header.
const KEPT: usize = HEADER_SIZE as usize;

/// How many of them are examined for what they look like.
const LOOKED_AT: usize = 8;

/// A kind of data that is mistaken for a dump.
#[derive(Clone, Copy, Debug, PartialEq, Eq)]
pub enum Kind {
    Xz,
    Zstd,
    Zip,
    Capture,
    Text,
}

impl Kind {
    /// Its name, as in 'looks like'.
    pub fn name(self) -> &'static str {
        match self {
            Kind::Xz => "xz data",
            Kind::Zstd => "zstd data",
            Kind::Zip => "zip data",
            Kind::Capture => "a packet capture",
            Kind::Text => "text",
        }
    }

    /// The command that unpacks it, if it is a packed file.
    pub fn unpacker(self) -> Option<&'static str> {
        match self {
            Kind::Xz => Some("xzcat"),
            Kind::Zstd => Some("zstdcat"),
            Kind::Zip => Some("unzip -p"),
            Kind::Capture | Kind::Text => None,
        }
    }
}

/// The first bytes of a file, as far as they have been read.
#[derive(Clone, Copy)]
pub struct FirstBytes {
    bytes: [u8; KEPT],
    len: usize,
    ghost within: { len ≤ 12 },
}

impl FirstBytes {
    pub fn new() -> FirstBytes {
        FirstBytes {
            bytes: [0; KEPT],
            len: 0,
        }
    }

    /// Takes the next bytes that were read.
    pub fn take(&mut self, bytes: &[u8]) {
        for byte in bytes {
            if self.len >= KEPT {
                return;
            }
            self.bytes[self.len] = *byte;
            self.len += 1;
        }
    }

    /// Returns the second of the first record since 1970 UTC, if so many bytes hold all of it.
    pub fn first_second(&self, bytes: u64) -> Option<u32> {
        if self.len < KEPT {
            return None;
        }
        let header = Header::parse(&self.bytes);
        let whole = u64::from(HEADER_SIZE).saturating_add(u64::from(header.length));
        if !is_within_limits(0, header.length) || bytes < whole {
            return None;
        }
        Some(header.seconds)
    }

    /// Returns what they look like, if that is not an MRT dump: in a dump, the first four bytes are a second of
    /// its time, and the fifth is 0.
    pub fn kind(&self) -> Option<Kind> {
        match &self.bytes[..self.len.min(LOOKED_AT)] {
            [0xfd, b'7', b'z', b'X', b'Z', 0, ..] => Some(Kind::Xz),
            [0x28, 0xb5, 0x2f, 0xfd, ..] => Some(Kind::Zstd),
            [b'P', b'K', 3, 4, ..] => Some(Kind::Zip),
            [0xa1, 0xb2, 0xc3, 0xd4, 0, 2, ..] | [0xd4, 0xc3, 0xb2, 0xa1, 2, 0, ..] => {
                Some(Kind::Capture)
            }
            [0xa1, 0xb2, 0x3c, 0x4d, 0, 2, ..] | [0x4d, 0x3c, 0xb2, 0xa1, 2, 0, ..] => {
                Some(Kind::Capture)
            }
            [0x0a, 0x0d, 0x0d, 0x0a, ..] => Some(Kind::Capture),
            bytes if is_text(bytes) => Some(Kind::Text),
            _ => None,
        }
    }
}

fn is_text(bytes: &[u8]) -> bool {
    bytes.len() == LOOKED_AT
        && bytes.iter().all(|byte| byte.is_ascii_graphic() || byte.is_ascii_whitespace())
}
