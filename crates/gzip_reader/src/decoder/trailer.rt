//! The trailers of members (RFC 1952, 2.3.1): the CRC-32 and the length of what the member holds.

ghost use Rattle.std.specs.Prelude.{◌≡◌, ◌≢◌, ◌<◌, ◌+◌, ◌%◌, ◌^◌, ◌⊎◌, ◌++◌, [], ℕ, List, length, true, IfOk, OnOk, OnErr, Ok, Err};
ghost use Rattle.gzip_reader.specs.BitFields.{number_at};
ghost use Rattle.gzip_reader.specs.declared.decoder.Phase.TheVariants.{BetweenMembers, Trailer};
ghost use Rattle.gzip_reader.specs.declared.decoder.Step.TheVariants.{To};
ghost use Rattle.gzip_reader.specs.Crc.{crc_value};
ghost use Rattle.gzip_reader.specs.declared.fault.Flaw.TheVariants.{Checksum, Length, Truncated};

use super::{Decoder, Phase, Step};
use crate::fault::Flaw;

/// The bytes of a trailer.
const TRAILER: usize = 8;

impl Decoder {
    ghost use Rattle.gzip_reader.specs.Bits.{bits_left, held, unread};
    ghost use Rattle.gzip_reader.specs.Members.{IsAccounted, LeavesMember};
    ghost use Rattle.gzip_reader.specs.Places.{Advances, IsPlaced, phase_after};
    ghost use Rattle.gzip_reader.specs.Steps.{IsSameBlock};

    /// The trailer.
    pub(super) fn trailer(&mut self) -> Result<Step, Flaw>
        requires { IsAccounted self.old }
        ensures leaves { LeavesMember self.old result }
        ensures advances { (more : List ℕ) → length more % 8 ≡ 0 → (self.old.input.is_at_end ≡ true → more ≡ []) → Advances self.old self.new Trailer more result }
        ensures aligned { IfOk result (λ step. step ≡ To BetweenMembers → bits_left self.new.input % 8 ≡ 0) }
        ensures same { IsSameBlock self.old self.new }
        ensures output { self.new.output ≡ self.old.output }
        ensures placed { IsPlaced self.new (phase_after Trailer result) }
    {
        is_word(self.count);
        if !self.input.has(TRAILER) {
            return Ok(Step::Pause);
        }
        self.input.align();
        match self.input.take(32) {
            Err(flaw) => Err(flaw),
            Ok(check) => match check_crc(check, self.register) {
                Err(flaw) => Err(flaw),
                Ok(_) => self.member_length(),
            },
        }
    }

    /// The last field of the trailer.
    fn member_length(&mut self) -> Result<Step, Flaw>
        ensures right { result ≡ Ok (To BetweenMembers) → unread self.old.input % 2 ^ 32 ≡ self.old.count }
        ensures to { IfOk result (λ step. step ≡ To BetweenMembers) }
        ensures read { IfOk result (λ step. (more : List ℕ) → number_at 32 (held self.old.input ++ more) ≡ Ok (self.old.count, held self.new.input ++ more)) }
        ensures wrong { result ≡ Err Length → (size : ℕ) × (size ≢ self.old.count) × ((more : List ℕ) → number_at 32 (held self.old.input ++ more) ≡ Ok (size, held self.new.input ++ more)) }
        ensures flaws { OnErr result ((result ≡ Err Length) ⊎ ((result ≡ Err Truncated) × (bits_left self.old.input < 32) × (number_at 32 (held self.old.input ++ []) ≡ Err Truncated))) }
        ensures size { IfOk result (λ step. bits_left self.new.input + 32 ≡ bits_left self.old.input) }
        ensures small { self.old.count < 2 ^ 32 }
        ensures same { IsSameBlock self.old self.new }
        ensures output { self.new.output ≡ self.old.output }
    {
        let count = self.count;
        is_word(count);
        match self.input.take(32) {
            Err(flaw) => Err(flaw),
            Ok(length) if length == count => Ok(Step::To(Phase::BetweenMembers)),
            Ok(_) => Err(Flaw::Length),
        }
    }
}

/// A number of 32 bits is below 2^32.
#[inline(always)]
fn is_word(number: u32)
    ensures { number < 2 ^ 32 }
{}

/// Compares the field CRC32 with the register of the member.
fn check_crc(check: u32, register: u32) -> Result<(), Flaw>
    ensures ok { OnOk result (check ≡ crc_value register) }
    ensures err { OnErr result ((result ≡ Err Checksum) × (check ≢ crc_value register)) }
{
    if check != register ^ u32::MAX {
        return Err(Flaw::Checksum);
    }
    Ok(())
}
