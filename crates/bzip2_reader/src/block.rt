// One block.
ghost use Rattle.std.specs.Prelude.{◌≡◌, ◌≢◌, ◌<◌, ◌≤◌, ◌+◌, ◌*◌, ◌^◌, ◌++◌, ◌⊎◌, ℕ, length, List, [], take, drop, Ok, Err, IfErr, IfOk, OnOk, vec_len, true, false};
ghost use Rattle.bzip2_reader.specs.declared.fault.BlockFault.TheVariants.{BadChecksum};
ghost use Rattle.bzip2_reader.specs.declared.fault.Cause.TheVariants.{Block as TheBlock, Memory};
ghost use Rattle.bzip2_reader.specs.Bits.{bits_at};
ghost use Rattle.bzip2_reader.specs.Blocks.{block_at, block_head_at, rows_at};
ghost use Rattle.bzip2_reader.specs.Heads.{head_of};
ghost use Rattle.bzip2_reader.specs.Cursors.{bits_left};
ghost use Rattle.bzip2_reader.specs.Fields.{Gives, Takes, bits_of, number};
ghost use Rattle.bzip2_reader.specs.Links.{AreSmall, IsWalk};
ghost use Rattle.bzip2_reader.specs.Checksums.{checksum_of};
ghost use Rattle.bzip2_reader.specs.Runs.{IsSettled, IsWithin, count_written, written};

use crate::bits::Cursor;
use crate::checksum::Checksums;
use crate::codes::{Codes, read_selectors, read_tables};
use crate::fault::{BlockFault, Cause};
use crate::runs::Runs;
use crate::scan::MAGIC;
use crate::symbols::{decode_symbols, read_used};
use crate::transform::link;
use std::alloc::Global;

/// The most bytes of a block before its runs are written out.
pub(crate) const MOST_SIZE: usize = 900_000;

/// What a block's head says.
#[derive(Drop)]
struct Head {
    checksum: u32,
    origin: u32,
}

/// Reads 48 bits.
pub(crate) fn read_magic(cursor: &mut Cursor<'_>) -> Result<u64, BlockFault>
    ensures bytes { cursor.new.bytes.now ≡ cursor.old.bytes.now }
    ensures moves { OnOk result (cursor.new.at ≡ cursor.old.at + 48) }
    ensures takes { Takes (λ n. n) result (bits_left cursor.new) (number 48 (bits_left cursor.old)) }
{
    let high = cursor.take(24)?;
    let low = cursor.take(24)?;
    Ok(u64::from(high) * 0x100_0000 + u64::from(low))
}

/// Reads the head: 48 bits, the checksum, the bit of shuffled blocks, and the place of the first byte.
#[tactic(auto, unfolding(crate::specs::Blocks::block_head_at))]
fn read_head(cursor: &mut Cursor<'_>) -> Result<Head, BlockFault>
    ensures bytes { cursor.new.bytes.now ≡ cursor.old.bytes.now }
    ensures named { IfOk result (λ h. h.checksum ≡ bits_at cursor.old.bytes.now (cursor.old.at + 48) 32) }
    ensures takes { Takes head_of result (bits_left cursor.new) (block_head_at (bits_left cursor.old)) }
{
    let magic = read_magic(cursor)?;
    if magic != MAGIC {
        return Err(BlockFault::NoBlock);
    }
    let checksum = cursor.take(32)?;
    if cursor.take_flag()? {
        return Err(BlockFault::Randomised);
    }
    let origin = cursor.take(24)?;
    Ok(Head { checksum, origin })
}

/// Reads the symbols of a block into a column, and returns how many bytes there are.
#[tactic(auto, unfolding(crate::specs::Blocks::rows_at))]
fn read_symbols(
    cursor: &mut Cursor<'_>,
    codes: &mut Codes,
    column: &mut [u8],
) -> Result<usize, BlockFault>
    requires room { length column.old ≡ 900000 }
    ensures bytes { OnOk result (cursor.new.bytes.now ≡ cursor.old.bytes.now) }
    ensures within { IfOk result (λ n. n ≤ length column.new) }
    ensures small { IfOk result (λ n. AreSmall (take n column.new)) }
    ensures takes { Takes (λ n. take n column.new) result (bits_left cursor.new) (rows_at (bits_left cursor.old)) }
{
    let mut order = [0u8; 256];
    let used = read_used(cursor, &mut order)?;
    if used == 0 {
        return Err(BlockFault::NoSymbols);
    }
    let tables = cursor.take(3)? as usize;
    if tables < 2 || tables > 6 {
        return Err(BlockFault::BadTables);
    }
    read_selectors(cursor, tables, codes)?;
    read_tables(cursor, codes, tables, used + 2)?;
    let decoded = decode_symbols(
        cursor.bytes,
        cursor.at,
        codes.tables(),
        codes.selectors(),
        &mut order,
        used,
        column,
    )?;
    cursor.move_to(decoded.end);
    Ok(decoded.count)
}

/// What links are.
#[derive(Clone, Copy, Drop)]
pub(crate) struct Text {
    /// The checksum that the block names.
    pub(crate) checksum: u32,
    /// How many bytes the block has before its runs are written out.
    pub(crate) size: usize,
    /// The first byte's link.
    pub(crate) first: u32,
    /// The bit after the block.
    pub(crate) end: usize,
}

/// Reads the block that begins at this bit into a column, and makes its links: the bytes that walk them from the first
/// on are its text.
pub(crate) fn read_text(
    codes: &mut Codes,
    column: &mut [u8],
    links: &mut [u32],
    bytes: &[u8],
    at: usize,
) -> Result<Text, BlockFault>
    requires short { length bytes.now ≤ 2 ^ 40 }
    requires column { length column.old ≡ 900000 }
    requires links { length links.old ≡ 900000 }
    ensures named { IfOk result (λ t. t.checksum ≡ bits_at bytes.now (at + 48) 32) }
    ensures size { IfOk result (λ t. t.size ≤ 900000) }
    ensures end { IfOk result (λ t. t.end ≤ 8 * length bytes.now) }
    ensures block { IfOk result (λ t. (raw : List ℕ) → length raw ≡ t.size → IsWalk links.new t.first raw →
        block_at (drop at (bits_of bytes.now))
        ≡ Ok (record { checksum = t.checksum; text = raw }, drop t.end (bits_of bytes.now))) }
    ensures fault { IfErr result (λ e. block_at (drop at (bits_of bytes.now)) ≡ Err e) }
{
    let Some(mut cursor) = Cursor::new(bytes, at) else {
        return Err(BlockFault::ShortBlock);
    };
    let head = read_head(&mut cursor)?;
    let size = read_symbols(&mut cursor, codes, column)?;
    if head.origin as usize >= size {
        return Err(BlockFault::BadOrigin);
    }
    link(&column[..size], links);
    Ok(Text {
        checksum: head.checksum,
        size,
        first: head.origin,
        end: cursor.at,
    })
}

/// How many bytes the checksum is made of at a time.
const PIECE: usize = 4096;

/// Returns the checksum of what a text says.
fn checksum_of(text: &[u8], sums: &Checksums) -> u32
    ensures { result ≡ checksum_of (written text.now) }
{
    let mut piece = [0u8; PIECE];
    let mut runs = Runs::new();
    let mut register = Checksums::START;
    loop {
        let count = runs.write(text, &mut piece);
        register = sums.update(register, &piece[..count]);
        if count < PIECE {
            return Checksums::end(register);
        }
    }
}

/// A block whose bytes have the checksum that it names. They are written out as they are given: those of long runs take
/// no memory.
#[derive(Drop)]
pub(crate) struct Block {
    text: Vec<u8>,
    pub(crate) checksum: u32,
    /// How far it was given.
    runs: Runs,
    ghost checked: { checksum ≡ checksum_of (written text.items) },
    ghost settled: { IsSettled text.items runs },
    ghost within: { IsWithin text.items runs },
}

impl Block {
    ghost use Rattle.bzip2_reader.specs.Left.{IsFresh, left_of};

    /// No bytes.
    pub(crate) fn new(alloc: Global) -> Block
        ensures left { left_of result ≡ [] }
        ensures fresh { IsFresh result }
    {
        Block {
            text: Vec::new(alloc),
            checksum: 0,
            runs: Runs::new(),
        }
    }

    /// Takes this text, in the memory of the one before, if the block's checksum is that of what the text says.
    pub(crate) fn take(
        raw: &[u8],
        checksum: u32,
        sums: &Checksums,
        mut text: Vec<u8>,
    ) -> Result<Block, Cause>
        ensures named { IfOk result (λ b. b.checksum ≡ checksum) }
        ensures text { IfOk result (λ b. b.text.items ≡ raw.now) }
        ensures fresh { IfOk result (λ b. IsFresh b) }
        ensures wrong { IfErr result (λ cause. (cause ≡ Memory)
            ⊎ ((cause ≡ TheBlock BadChecksum) × (checksum_of (written raw.now) ≢ checksum))) }
    {
        text.clear();
        if text.extend_from_slice(raw).is_err() {
            return Err(Cause::Memory);
        }
        if checksum_of(text.as_slice(), sums) != checksum {
            return Err(Cause::Block(BlockFault::BadChecksum));
        }
        Ok(Block {
            text,
            checksum,
            runs: Runs::new(),
        })
    }

    /// Takes out the memory of the text.
    pub(crate) fn into_text(self) -> Vec<u8> {
        self.text
    }

    /// Whether all bytes were given.
    pub(crate) fn is_given(&self) -> bool
        ensures yes { result ≡ true → left_of self.now ≡ [] }
        ensures no { result ≡ false → left_of self.now ≢ [] }
    {
        self.runs.is_done(self.text.as_slice())
    }

    /// Gives the next bytes, or as many of them as there is room for.
    pub(crate) fn give(&mut self, buf: &mut [u8]) -> usize
        ensures bound { result ≤ length buf.new }
        ensures bytes { take result buf.new
            ≡ take result (drop (count_written self.old.text.items self.old.runs) (written self.old.text.items)) }
        ensures count { count_written self.new.text.items self.new.runs
            ≡ count_written self.old.text.items self.old.runs + result }
        ensures next { left_of self.old ≡ take result buf.new ++ left_of self.new }
        ensures ends { result < length buf.new → left_of self.new ≡ [] }
        ensures same { (self.new.text ≡ self.old.text) × (self.new.checksum ≡ self.old.checksum) }
    {
        self.runs.write(self.text.as_slice(), buf)
    }
}
