//! Fields, each read from the front of the remaining bytes. If the bytes run out, the result
//! is the fault that the caller passes. Numbers are big-endian.

ghost use Rattle.std.specs.Prelude.{◌≡◌, ℕ};
ghost use Rattle.mrt_frame.specs.Fields as fields;
ghost use Rattle.mrt_frame.specs.Fields.{Reads};

use crate::fault::Fault;
use byteorder::{BigEndian, ByteOrder};

/// Reads the next byte.
#[inline]
pub fn byte_at(bytes: &[u8], fault: Fault) -> Result<(u8, &[u8]), Fault>
    ensures { Reads (λ x. (x.0, x.1.now)) result (fields.byte_at fault bytes.now) }
{
    if bytes.is_empty() {
        return Err(fault);
    }
    Ok((bytes[0], &bytes[1..]))
}

/// Reads the next n bytes.
#[inline]
pub fn bytes_at(bytes: &[u8], n: usize, fault: Fault) -> Result<(&[u8], &[u8]), Fault>
    ensures { Reads (λ x. (x.0.now, x.1.now)) result (fields.bytes_at fault n bytes.now) }
{
    if bytes.len() < n {
        return Err(fault);
    }
    Ok(bytes.split_at(n))
}

/// Reads the next two bytes as a number.
#[inline]
pub fn u16_at(bytes: &[u8], fault: Fault) -> Result<(u16, &[u8]), Fault>
    ensures { Reads (λ x. (x.0, x.1.now)) result (fields.number_at fault 2 bytes.now) }
{
    if bytes.len() < 2 {
        return Err(fault);
    }
    Ok((BigEndian::read_u16(bytes), &bytes[2..]))
}

/// Reads the next four bytes as a number.
#[inline]
pub fn u32_at(bytes: &[u8], fault: Fault) -> Result<(u32, &[u8]), Fault>
    ensures { Reads (λ x. (x.0, x.1.now)) result (fields.number_at fault 4 bytes.now) }
{
    if bytes.len() < 4 {
        return Err(fault);
    }
    Ok((BigEndian::read_u32(bytes), &bytes[4..]))
}

/// Reads the next sixteen bytes as a number.
#[inline]
pub fn u128_at(bytes: &[u8], fault: Fault) -> Result<(u128, &[u8]), Fault>
    ensures { Reads (λ x. (x.0, x.1.now)) result (fields.number_at fault 16 bytes.now) }
{
    if bytes.len() < 16 {
        return Err(fault);
    }
    Ok((BigEndian::read_u128(bytes), &bytes[16..]))
}
