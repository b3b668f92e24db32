// The head and the end of a stream.
ghost use Rattle.std.specs.Prelude.{◌≡◌, ◌≤◌, ℕ, List, IfOk, IfErr, Ok, Err};
ghost use Rattle.bzip2_reader.specs.Coming.{IsPart};
ghost use Rattle.bzip2_reader.specs.Cursors.{bits_left};
ghost use Rattle.bzip2_reader.specs.Fields.{number};
ghost use Rattle.bzip2_reader.specs.Files.{Between, Inside, end_in, head_at, told};

use crate::bits::Cursor;
use crate::fault::{Cause, cause_of};

/// Takes the next bits as a number, or tells what is wrong with a file that ends before their last.
fn take_field(cursor: &mut Cursor<'_>, count: u32) -> Result<u32, Cause>
    requires { count ≤ 32 }
    ensures bytes { cursor.new.bytes.now ≡ cursor.old.bytes.now }
    ensures taken { IfOk result (λ n. told (number count (bits_left cursor.old)) ≡ Ok (n, bits_left cursor.new)) }
    ensures wrong { IfErr result (λ cause. told (number count (bits_left cursor.old)) ≡ Err cause) }
{
    match cursor.take(count) {
        Ok(n) => Ok(n),
        Err(fault) => Err(cause_of(fault)),
    }
}

/// Reads the head of a stream, and returns how many bytes its blocks have at most before runs are written out.
#[tactic(auto, unfolding(crate::specs::Files::head_at))]
pub(crate) fn read_head(cursor: &mut Cursor<'_>) -> Result<usize, Cause>
    ensures bytes { cursor.new.bytes.now ≡ cursor.old.bytes.now }
    ensures head { IsPart (λ most. Inside most 0) result (bits_left cursor.new) (head_at (bits_left cursor.old)) }
{
    if take_field(cursor, 8)? != 0x42 {
        return Err(Cause::NoStream);
    }
    if take_field(cursor, 8)? != 0x5A {
        return Err(Cause::NoStream);
    }
    if take_field(cursor, 8)? != 0x68 {
        return Err(Cause::NoStream);
    }
    let level = take_field(cursor, 8)?;
    if level < 0x31 || level > 0x39 {
        return Err(Cause::NoStream);
    }
    Ok(100_000 * (level as usize - 0x30))
}

/// Reads the end of a stream whose blocks have this checksum, behind its 48 bits.
pub(crate) fn read_end(cursor: &mut Cursor<'_>, sum: u32) -> Result<(), Cause>
    ensures bytes { cursor.new.bytes.now ≡ cursor.old.bytes.now }
    ensures end { IsPart (λ _. Between) result (bits_left cursor.new) (end_in sum (bits_left cursor.old)) }
{
    if take_field(cursor, 32)? != sum {
        return Err(Cause::StreamChecksum);
    }
    cursor.move_to(cursor.at.div_ceil(8) * 8);
    Ok(())
}
