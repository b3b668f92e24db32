//! The records of a dump, counted by their headers as its bytes pass by. The replay doesn't depend
//! on this count, and this count doesn't depend on the replay.

ghost use Rattle.std.specs.Prelude.{◌<◌, ◌≤◌};

use crate::address_family::AddressFamily;
use crate::mrt_names::RecordKind;
use bgp_prefix::Ipv6;
use mrt_frame::{Header, is_within_limits};
use peer_units::TableDumpRule;
use std::alloc::Global;

/// How many bytes a header has.
const HEADER_SIZE: usize = mrt_frame::HEADER_SIZE as usize;

/// How many kinds of records that are set aside are counted separately.
const MOST_KINDS: usize = 64;

/// How many records of a kind are set aside.
#[derive(Clone, Copy, Debug, PartialEq, Eq)]
pub struct Aside {
    pub kind: RecordKind,
    pub count: u64,
}

/// What was counted of a dump.
#[derive(Drop)]
pub struct Records {
    /// The family of the routes that are read.
    family: AddressFamily,
    /// What is done with TABLE_DUMP records.
    table_dumps: TableDumpRule,
    /// The first bytes of a header, and how many have arrived.
    header: [u8; HEADER_SIZE],
    filled: usize,
    /// The last whole one.
    last_header: Header,
    /// How many bytes of its body are still to come.
    left: u32,
    /// Whether it ends the dump, since its record is too long.
    is_cut_off: bool,
    whole_bytes: u64,
    count: u64,
    aside: u64,
    kinds: Vec<Aside>,
    first: u32,
    last: u32,
    ghost room: { filled < 12 },
}

impl Records {
    /// Returns the counts of a dump of which nothing has been read, where the routes of this family are, and this is
    /// done with TABLE_DUMP records.
    pub fn new(alloc: Global, family: AddressFamily, table_dumps: TableDumpRule) -> Records {
        Records {
            family,
            table_dumps,
            header: [0; HEADER_SIZE],
            filled: 0,
            last_header: Header {
                seconds: 0,
                kind: 0,
                subtype: 0,
                length: 0,
            },
            left: 0,
            is_cut_off: false,
            whole_bytes: 0,
            count: 0,
            aside: 0,
            kinds: Vec::new(alloc),
            first: 0,
            last: 0,
        }
    }

    /// The number of whole records.
    pub fn count(&self) -> u64 {
        self.count
    }

    /// How many of them aren't interpreted.
    pub fn aside(&self) -> u64 {
        self.aside
    }

    /// These by type and subtype, in the order they first appear: at most 64 kinds.
    pub fn kinds(&self) -> &[Aside] {
        self.kinds.as_slice()
    }

    /// The number of bytes in the whole records.
    pub fn whole_bytes(&self) -> u64 {
        self.whole_bytes
    }

    /// The second since 1970 UTC of the first whole record.
    pub fn first(&self) -> Option<u32> {
        if self.count > 0 {
            Some(self.first)
        } else {
            None
        }
    }

    /// That of the last one.
    pub fn last(&self) -> Option<u32> {
        if self.count > 0 {
            Some(self.last)
        } else {
            None
        }
    }

    /// Takes the next bytes of the dump.
    pub fn take(&mut self, bytes: &[u8]) {
        // Usually they are a whole body or a whole header, since these are read in turn.
        if self.left > 0 {
            if bytes.len() == self.left as usize {
                self.left = 0;
                self.end();
            } else {
                self.take_parts(bytes);
            }
        } else if bytes.len() == HEADER_SIZE && self.filled == 0 && !self.is_cut_off {
            self.header.copy_from_slice(bytes);
            self.begin();
        } else {
            self.take_parts(bytes);
        }
    }

    fn take_parts(&mut self, bytes: &[u8]) {
        let mut rest = bytes;
        // Each step takes at least one byte.
        for _ in 0..bytes.len() {
            if rest.is_empty() || self.is_cut_off {
                return;
            }
            rest = if self.left > 0 {
                self.take_body(rest)
            } else {
                self.take_header(rest)
            };
        }
    }

    /// Takes what belongs to the body, and returns what follows it.
    fn take_body<'b>(&mut self, bytes: &'b [u8]) -> &'b [u8] {
        let count = bytes.len().min(self.left as usize);
        self.left -= count as u32;
        if self.left == 0 {
            self.end();
        }
        &bytes[count..]
    }

    /// Takes what belongs to the header, and returns what follows it.
    fn take_header<'b>(&mut self, bytes: &'b [u8]) -> &'b [u8] {
        let count = bytes.len().min(HEADER_SIZE - self.filled);
        let end = self.filled + count;
        self.header[self.filled..end].copy_from_slice(&bytes[..count]);
        if end < HEADER_SIZE {
            self.filled = end;
        } else {
            self.filled = 0;
            self.begin();
        }
        &bytes[count..]
    }

    /// Processes the header, which is whole.
    fn begin(&mut self) {
        let header = Header::parse(&self.header);
        self.last_header = header;
        if !is_within_limits(self.whole_bytes, header.length) {
            self.is_cut_off = true;
        } else if header.length == 0 {
            self.end();
        } else {
            self.left = header.length;
        }
    }

    /// Counts a record whose body is complete.
    fn end(&mut self) {
        let header = self.last_header;
        let bytes = HEADER_SIZE as u64 + u64::from(header.length);
        self.whole_bytes = self.whole_bytes.saturating_add(bytes);
        if self.count == 0 {
            self.first = header.seconds;
        }
        self.last = header.seconds;
        self.count = self.count.saturating_add(1);
        let kind = RecordKind::of(header);
        if self.is_aside(kind) {
            self.aside = self.aside.saturating_add(1);
            self.count_kind(kind);
        }
    }

    /// Whether records of a kind aren't interpreted.
    fn is_aside(&self, kind: RecordKind) -> bool {
        match self.family {
            AddressFamily::Ipv4 => kind.is_aside::<u32>(self.table_dumps),
            AddressFamily::Ipv6 => kind.is_aside::<Ipv6>(self.table_dumps),
        }
    }

    fn count_kind(&mut self, kind: RecordKind) {
        for row in self.kinds.iter_mut() {
            if row.kind == kind {
                row.count = row.count.saturating_add(1);
                return;
            }
        }
        if self.kinds.len() < MOST_KINDS {
            let _ = self.kinds.push(Aside { kind, count: 1 });
        }
    }
}
