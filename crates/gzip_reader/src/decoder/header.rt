//! The headers of members (RFC 1952, 2.3), and what stands between members.

ghost use Rattle.std.specs.Prelude.{◌≡◌, ◌≢◌, ◌<◌, ◌%◌, ◌^◌, ◌⊎◌, ◌≤◌, ◌+◌, ◌*◌, ◌++◌, ◌∷◌, [], ℕ, List, true, false, Ok, Err, IfOk, OnErr};
ghost use Rattle.gzip_reader.specs.BitFields.{number_at};
ghost use Rattle.gzip_reader.specs.Crc.{crc};
ghost use Rattle.gzip_reader.specs.Files.{fixed_byte, flags_at, header_at, no_bytes, skip_bytes};
ghost use Rattle.gzip_reader.specs.declared.decoder.Step.TheVariants.{To};
ghost use Rattle.gzip_reader.specs.declared.decoder.Phase.TheVariants.{BetweenMembers, Comment, Extra, ExtraLength, HeaderCheck, Member, Name};
ghost use Rattle.gzip_reader.specs.declared.fault.Flaw.TheVariants.{Truncated};

use super::{Decoder, Phase, Step};
use crate::fault::Flaw;

/// The bytes of a header up to the extra field.
const HEADER: usize = 10;

const FHCRC: u32 = 2;

const FEXTRA: u32 = 4;

const FNAME: u32 = 8;

const FCOMMENT: u32 = 16;

const RESERVED: u32 = 224;

/// The bytes ID1 and ID2 that begin a member, as one number.
const MAGIC: u64 = 0x8b1f;

impl Decoder {
    ghost use Rattle.gzip_reader.specs.Bits.{bits_left, held};
    ghost use Rattle.gzip_reader.specs.Members.{StaysInside, ComesAfter};
    ghost use Rattle.gzip_reader.specs.Places.{Advances, IsFresh, IsPlaced, ReadsHeader, TakesField, TakesFlags, TakesMethod, phase_after};

    /// Takes a byte of the header.
    fn header_byte(&mut self) -> Result<u32, Flaw>
        ensures byte { IfOk result (λ byte. (byte < 256) × ((more : List ℕ) → number_at 8 (held self.old.input ++ more) ≡ Ok (byte, held self.new.input ++ more))) }
        ensures register { IfOk result (λ byte. self.new.header_register ≡ crc self.old.header_register (byte ∷ [])) }
        ensures short { OnErr result ((result ≡ Err Truncated) × (bits_left self.old.input < 8) × (number_at 8 (held self.old.input ++ []) ≡ Err Truncated)) }
        ensures left { bits_left self.old.input ≤ bits_left self.new.input + 8 }
        ensures same { ReadsHeader self.old self.new }
    {
        match self.input.take(8) {
            Err(flaw) => Err(flaw),
            Ok(byte) => {
                let register = self.header_register;
                self.header_register = self.tables.step(register, (byte % 256) as u8);
                Ok(byte)
            }
        }
    }

    /// Takes a byte of the header that has to be this one.
    fn fixed_byte(&mut self, value: u32, flaw: Flaw) -> Result<(), Flaw>
        ensures field { (more : List ℕ) → (self.old.input.is_at_end ≡ true → more ≡ []) → (self.old.input.is_at_end ≡ false → 8 ≤ bits_left self.old.input)
            → TakesField result self.new more (fixed_byte value flaw self.old.header_register (held self.old.input ++ more)) }
        ensures left { bits_left self.old.input ≤ bits_left self.new.input + 8 }
        ensures same { ReadsHeader self.old self.new }
    {
        match self.header_byte() {
            Err(short) => Err(short),
            Ok(byte) if byte == value => Ok(()),
            Ok(_) => Err(flaw),
        }
    }

    /// Takes bytes of the header that say nothing about the data.
    fn skip_bytes(&mut self, count: u32) -> Result<(), Flaw>
        ensures field { (more : List ℕ) → (self.old.input.is_at_end ≡ true → more ≡ []) → (self.old.input.is_at_end ≡ false → 8 * count ≤ bits_left self.old.input)
            → TakesField result self.new more (skip_bytes count self.old.header_register (held self.old.input ++ more)) }
        ensures same { ReadsHeader self.old self.new }
    {
        for taken in 0..count {
            match self.header_byte() {
                Err(flaw) => return Err(flaw),
                Ok(_) => {}
            }
        }
        Ok(())
    }

    /// Takes ID1, ID2 and CM.
    fn method(&mut self) -> Result<(), Flaw>
        requires { self.old.header_register ≡ no_bytes }
        ensures header { (more : List ℕ) → (self.old.input.is_at_end ≡ true → more ≡ []) → (self.old.input.is_at_end ≡ false → 24 ≤ bits_left self.old.input)
            → TakesMethod result self.new more (header_at (held self.old.input ++ more)) }
        ensures left { bits_left self.old.input ≤ bits_left self.new.input + 24 }
        ensures same { ReadsHeader self.old self.new }
    {
        match self.fixed_byte(0x1f, Flaw::Magic) {
            Err(flaw) => Err(flaw),
            Ok(_) => match self.fixed_byte(0x8b, Flaw::Magic) {
                Err(flaw) => Err(flaw),
                Ok(_) => self.fixed_byte(8, Flaw::Method),
            },
        }
    }

    /// Takes the flags, and the bytes up to the extra field.
    fn header_flags(&mut self) -> Result<u32, Flaw>
        ensures header { (more : List ℕ) → (self.old.input.is_at_end ≡ true → more ≡ []) → (self.old.input.is_at_end ≡ false → 56 ≤ bits_left self.old.input)
            → TakesFlags result self.new more (flags_at self.old.header_register (held self.old.input ++ more)) }
        ensures same { ReadsHeader self.old self.new }
    {
        match self.header_byte() {
            Err(flaw) => Err(flaw),
            Ok(flags) if flags & RESERVED != 0 => Err(Flaw::Flags),
            Ok(flags) => match self.skip_bytes(6) {
                Err(flaw) => Err(flaw),
                Ok(_) => Ok(flags),
            },
        }
    }

    /// The header up to the extra field.
    pub(super) fn start_member(&mut self) -> Result<Step, Flaw>
        ensures inside { StaysInside result }
        ensures advances { (more : List ℕ) → (self.old.input.is_at_end ≡ true → more ≡ []) → Advances self.old self.new Member more result }
        ensures fresh { IfOk result (λ step. step ≡ To ExtraLength → IsFresh self.new) }
        ensures placed { IsPlaced self.new (phase_after Member result) }
        ensures given { self.new.output.given ≡ self.old.output.given }
        ensures output { (self.new.output.bytes ≡ self.old.output.bytes) × (self.new.output.filled ≡ self.old.output.filled) }
        ensures end { self.new.input.is_at_end ≡ self.old.input.is_at_end }
    {
        if !self.input.has(HEADER) {
            return Ok(Step::Pause);
        }
        self.header_register = u32::MAX;
        match self.method() {
            Err(flaw) => Err(flaw),
            Ok(_) => match self.header_flags() {
                Err(flaw) => Err(flaw),
                Ok(flags) => {
                    self.start_data(flags);
                    Ok(Step::To(Phase::ExtraLength))
                }
            },
        }
    }

    /// Begins the data of a member whose header has these flags.
    fn start_data(&mut self, flags: u32)
        ensures fresh { IsFresh self.new }
        ensures flags { self.new.flags ≡ flags }
        ensures same { (self.new.input ≡ self.old.input) × (self.new.header_register ≡ self.old.header_register) }
        ensures output { (self.new.output.bytes ≡ self.old.output.bytes) × (self.new.output.filled ≡ self.old.output.filled) }
        ensures given { self.new.output.given ≡ self.old.output.given }
    {
        self.flags = flags;
        self.register = u32::MAX;
        self.count = 0;
        self.output.start_member();
    }

    /// What follows a member: another one, zero bytes, or the end.
    pub(super) fn next_member(&mut self) -> Result<Step, Flaw>
        ensures after { ComesAfter self.old self.new result }
        ensures advances { (more : List ℕ) → bits_left self.old.input % 8 ≡ 0 → (self.old.input.is_at_end ≡ true → more ≡ []) → Advances self.old self.new BetweenMembers more result }
        ensures same { ReadsHeader self.old self.new }
        ensures placed { bits_left self.old.input % 8 ≡ 0 → IsPlaced self.new (phase_after BetweenMembers result) }
    {
        if !self.input.has(2) {
            return Ok(Step::Pause);
        }
        let next = self.input.peek();
        let count = self.input.count;
        if count == 0 {
            return Ok(Step::To(Phase::Ended));
        }
        if next % 0x100 == 0 {
            return match self.input.take(8) {
                Err(flaw) => Err(flaw),
                Ok(_) => Ok(Step::To(Phase::BetweenMembers)),
            };
        }
        if is_member(next, count) {
            return Ok(Step::To(Phase::Member));
        }
        Err(Flaw::Trailing)
    }

    /// The length of the extra field, if there is one.
    pub(super) fn extra_length(&mut self) -> Result<Step, Flaw>
        ensures inside { StaysInside result }
        ensures advances { (more : List ℕ) → (self.old.input.is_at_end ≡ true → more ≡ []) → Advances self.old self.new ExtraLength more result }
        ensures same { ReadsHeader self.old self.new }
        ensures placed { IsFresh self.old → IsPlaced self.new (phase_after ExtraLength result) }
    {
        if self.flags & FEXTRA == 0 {
            return Ok(Step::To(Phase::Name));
        }
        if !self.input.has(2) {
            return Ok(Step::Pause);
        }
        match self.header_byte() {
            Err(flaw) => Err(flaw),
            Ok(low) => match self.header_byte() {
                Err(flaw) => Err(flaw),
                Ok(high) => Ok(Step::To(Phase::Extra(low % 256 + 256 * (high % 256)))),
            },
        }
    }

    /// A byte of the extra field.
    pub(super) fn extra(&mut self, left: u32) -> Result<Step, Flaw>
        ensures inside { StaysInside result }
        ensures advances { (more : List ℕ) → (self.old.input.is_at_end ≡ true → more ≡ []) → Advances self.old self.new (Extra left) more result }
        ensures same { ReadsHeader self.old self.new }
        ensures placed { IsFresh self.old → IsPlaced self.new (phase_after (Extra left) result) }
    {
        if left == 0 {
            return Ok(Step::To(Phase::Name));
        }
        if !self.input.has(1) {
            return Ok(Step::Pause);
        }
        match self.header_byte() {
            Err(flaw) => Err(flaw),
            Ok(_) => Ok(Step::To(Phase::Extra(left - 1))),
        }
    }

    /// A byte of the name, if there is one.
    pub(super) fn name(&mut self) -> Result<Step, Flaw>
        ensures inside { StaysInside result }
        ensures advances { (more : List ℕ) → (self.old.input.is_at_end ≡ true → more ≡ []) → Advances self.old self.new Name more result }
        ensures same { ReadsHeader self.old self.new }
        ensures placed { IsFresh self.old → IsPlaced self.new (phase_after Name result) }
    {
        if self.flags & FNAME == 0 {
            return Ok(Step::To(Phase::Comment));
        }
        if !self.input.has(1) {
            return Ok(Step::Pause);
        }
        match self.header_byte() {
            Err(flaw) => Err(flaw),
            Ok(0) => Ok(Step::To(Phase::Comment)),
            Ok(_) => Ok(Step::To(Phase::Name)),
        }
    }

    /// A byte of the comment, if there is one.
    pub(super) fn comment(&mut self) -> Result<Step, Flaw>
        ensures inside { StaysInside result }
        ensures advances { (more : List ℕ) → (self.old.input.is_at_end ≡ true → more ≡ []) → Advances self.old self.new Comment more result }
        ensures same { ReadsHeader self.old self.new }
        ensures placed { IsFresh self.old → IsPlaced self.new (phase_after Comment result) }
    {
        if self.flags & FCOMMENT == 0 {
            return Ok(Step::To(Phase::HeaderCheck));
        }
        if !self.input.has(1) {
            return Ok(Step::Pause);
        }
        match self.header_byte() {
            Err(flaw) => Err(flaw),
            Ok(0) => Ok(Step::To(Phase::HeaderCheck)),
            Ok(_) => Ok(Step::To(Phase::Comment)),
        }
    }

    /// The check of the header, if there is one: the lower half of its CRC-32.
    pub(super) fn header_check(&mut self) -> Result<Step, Flaw>
        ensures inside { StaysInside result }
        ensures advances { (more : List ℕ) → IsFresh self.old → (self.old.input.is_at_end ≡ true → more ≡ []) → Advances self.old self.new HeaderCheck more result }
        ensures same { ReadsHeader self.old self.new }
        ensures placed { IsFresh self.old → IsPlaced self.new (phase_after HeaderCheck result) }
    {
        if self.flags & FHCRC == 0 {
            return Ok(Step::To(Phase::BlockHeader));
        }
        if !self.input.has(2) {
            return Ok(Step::Pause);
        }
        match self.input.take(16) {
            Err(flaw) => Err(flaw),
            Ok(check) if check == (self.header_register ^ u32::MAX) % 0x1_0000 => {
                Ok(Step::To(Phase::BlockHeader))
            }
            Ok(_) => Err(Flaw::HeaderCheck),
        }
    }
}

/// Whether these bits, of which there are so many, begin a member: with ID1 and ID2, or ID1 is all of them.
fn is_member(next: u64, count: u32) -> bool
    ensures some { result ≡ true → (next % 2 ^ 16 ≡ 0x8b1f) ⊎ ((next ≡ 0x1f) × (count ≡ 8)) }
    ensures other { result ≡ false → (next % 2 ^ 16 ≢ 0x8b1f) × (next ≡ 0x1f → count ≢ 8) }
{
    if next % 0x1_0000 == MAGIC {
        return true;
    }
    next == 0x1f && count == 8
}
