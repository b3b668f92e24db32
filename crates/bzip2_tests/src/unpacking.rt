//! A caller that knows what it is given: the bytes of a file that is read to its end are those that are defined.

ghost use Rattle.std.specs.Prelude.{◌≡◌, List, Option, Some, IfSome};
ghost use Rattle.bzip2_reader.specs.Files.{Unpacked, unpacked};
ghost use Rattle.bzip2_reader.specs.Reading.{device_of, to_come};

use super::reading::{HELLO, TEXT};
use bzip2_reader::Bunzip;
use mrt_frame::{Counted, Source};
use std::alloc::Global;

/// Reads until the end.
fn read_all<D: Source>(alloc: Global, reader: &mut Bunzip<D>) -> Option<Vec<u8>>
    ensures { (u : Unpacked) → to_come (D.remaining (device_of reader.old)) reader.old ≡ Some u →
        IfSome result (λ bytes. bytes.items ≡ u.given) }
{
    let mut bytes = Vec::new(alloc);
    let mut block = [0u8; 700];
    for _ in 0..10_000u32 {
        let Ok(count) = reader.read_some(&mut block) else {
            return None;
        };
        if count == 0 {
            return Some(bytes);
        }
        if bytes.extend_from_slice(&block[..count]).is_err() {
            return None;
        }
    }
    None
}

/// All bytes of a packed file.
fn unpack(alloc: Global, packed: &[u8]) -> Option<Vec<u8>>
    ensures { IfSome result (λ bytes. bytes.items ≡ (unpacked packed.now).given) }
{
    let mut reader = Bunzip::new(alloc, Counted::new(packed));
    read_all(alloc, &mut reader)
}

#[test]
fn what_is_read_is_what_is_defined(rt: HostRuntime) {
    let bytes = unpack(rt.alloc(), &HELLO).expect(&rt, "a whole file");
    assert!(rt; bytes.as_slice() == TEXT.as_bytes());
}
