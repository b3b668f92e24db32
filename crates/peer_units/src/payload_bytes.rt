//! The bytes of payloads.

ghost use Rattle.std.specs.Prelude.{◌≤◌, ◌≡◌, IfOk, IsOk, length};

use bgp_prefix::Memory;
use smallvec::SmallVec;
use std::alloc::Global;
use std::marker::Model;

/// How many bytes a payload stores inline: most messages and nearly all attributes of RIB entries have no more.
const IN_PLACE: usize = 112;

/// The bytes of a message, or of the attributes of a RIB entry, which contracts see as their list. Up to 112 of
/// them are stored in the value itself, so few units need an allocation of their own.
#[derive(Debug, Drop)]
pub struct PayloadBytes {
    bytes: SmallVec<u8, IN_PLACE>,
}

impl Model for PayloadBytes {
    ghost use Rattle.std.specs.Prelude.{ℕ, List};

    ghost Value = { List ℕ };

    ghost view = { λ p. p.bytes.items };
}

impl PayloadBytes {
    /// Returns a copy of these bytes. Up to 112 of them allocate nothing.
    pub fn from_slice(alloc: Global, bytes: &[u8]) -> Result<PayloadBytes, Memory>
        ensures copies { IfOk result (λ copy. copy ≡ bytes.now) }
        ensures short { length bytes.now ≤ 112 → IsOk result }
    {
        Ok(PayloadBytes {
            bytes: SmallVec::from_slice(alloc, bytes)?,
        })
    }

    /// Takes these bytes. More than 112 keep their memory.
    pub fn from_vec(bytes: Vec<u8>) -> PayloadBytes
        ensures { result ≡ bytes.items }
    {
        if bytes.len() <= IN_PLACE {
            let copy = SmallVec::from_slice(*bytes.allocator(), bytes.as_slice());
            return PayloadBytes {
                bytes: copy.unwrap(),
            };
        }
        PayloadBytes {
            bytes: SmallVec::from_vec(bytes),
        }
    }

    /// The bytes.
    pub fn as_slice(&self) -> &[u8]
        ensures { result.now ≡ self.now }
    {
        self.bytes.as_slice()
    }
}
