//! A few bytes, written one after another.

ghost use Rattle.std.specs.Prelude.{◌≡◌, ◌+◌, ◌≤◌, [], ◌++◌, OnOk, length};

use bgp_prefix::Memory;
use std::marker::Model;

/// Up to 50 bytes: as many as a packed route has in front of its path.
#[derive(Drop)]
pub struct FrontBytes {
    len: usize,
    bytes: [u8; 50],
}

impl Model for FrontBytes {
    ghost use Rattle.std.specs.Prelude.{ℕ, ◌≡◌, ◌≤◌, List, length, take};

    ghost Value = { List ℕ };

    ghost view = { λ b. take b.len b.bytes };

    ghost invariant = { λ b. (b.len ≤ 50) × (length b.bytes ≡ 50) };
}

impl FrontBytes {
    /// Returns no bytes.
    #[inline(always)]
    pub fn new() -> FrontBytes
        ensures { result ≡ [] }
    {
        FrontBytes {
            len: 0,
            bytes: [0; 50],
        }
    }

    /// Appends bytes.
    #[inline(always)]
    pub fn push(&mut self, more: &[u8])
        requires { length self.old + length more.now ≤ 50 }
        ensures { self.new ≡ self.old ++ more.now }
    {
        let end = self.len + more.len();
        self.bytes[self.len..end].copy_from_slice(more);
        self.len = end;
    }

    /// Appends all bytes to other ones. As many are copied each time, which takes no call.
    #[inline(always)]
    pub fn append_to(&self, out: &mut Vec<u8>) -> Result<(), Memory>
        ensures { OnOk result (out.new.items ≡ out.old.items ++ self.now) }
    {
        out.extend_from_slice(&self.bytes)?;
        out.truncate(out.len() - (self.bytes.len() - self.len));
        Ok(())
    }
}
