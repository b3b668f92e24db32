//! The laws of the form. Nothing is computed.

ghost use Rattle.std.specs.Prelude.{◌≡◌, ◌<◌, ℕ, List, [], length, Some, None, Ok, Err};
ghost use Rattle.bzip2_reader.specs.declared.fault.Cause.{Cause as FileCause};
ghost use Rattle.bzip2_reader.specs.Files.{Between, IsMore, Part, Place, after_part, part_at, unpack};
ghost use Rattle.bzip2_reader.specs.Blocks.{block_at};
ghost use Rattle.bzip2_reader.specs.Links.{AreSmall};
ghost use Rattle.bzip2_reader.specs.Rotations.{IsTransform};
ghost use Rattle.bzip2_reader.specs.Steady.{IsSteady, TakesSome};
ghost use Rattle.bzip2_reader.specs.Transform.{text_of};

/// A block doesn't depend on the bits behind it: it is the same, and what is left are the last bits, if more stand
/// there. So is a fault, unless it is that bits are missing.
pub fn blocks_stand_alone()
    ensures steady { IsSteady block_at }
    ensures takes { (bits : List ℕ) → TakesSome bits (block_at bits) }
{}

/// A file is unpacked part by part: the bytes of the next part, and then what comes after it; up to the first part with
/// which something is wrong, or the end of the last stream.
pub fn files_unpack_part_by_part()
    ensures next { (place : Place) (bits : List ℕ) (part : Part) → part_at place bits ≡ Ok part →
        unpack place bits ≡ after_part part.given (unpack part.next part.rest) }
    ensures fault { (place : Place) (bits : List ℕ) (cause : FileCause) → IsMore place bits →
        part_at place bits ≡ Err cause → unpack place bits ≡ record { given = []; damage = Some cause } }
    ensures end { unpack Between [] ≡ record { given = []; damage = None } }
{}

/// The last column of a text's sorted rotations, and a row of them that is the text, give back the text: `text_of`
/// inverts the Burrows-Wheeler transform. Each text has such a row and exactly one such column.
pub fn transforms_are_inverted()
    ensures inverse { (text column : List ℕ) (row : ℕ) → AreSmall text → IsTransform text column row →
        text_of column row ≡ text }
    ensures exists { (text : List ℕ) → 0 < length text → (column : List ℕ) × (row : ℕ) × IsTransform text column row }
    ensures one { (text column other : List ℕ) (row place : ℕ) → IsTransform text column row →
        IsTransform text other place → column ≡ other }
{}
