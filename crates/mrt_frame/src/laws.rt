//! The laws of cutting.

ghost use Rattle.std.specs.Prelude.{◌≡◌, ◌++◌, ℕ, List, [], Option, Some};
ghost use Rattle.mrt_frame.specs.Cuts.{cuts};
ghost use Rattle.mrt_frame.specs.Cutting.{IsCutting, cuts_of};
ghost use Rattle.mrt_frame.specs.Frames.{Position, TakesCuts, start_of};
ghost use Rattle.mrt_frame.specs.Given.{Told, NextIs, PartIs};
ghost use Rattle.mrt_frame.specs.declared.error.ReplayError.{ReplayError};
ghost use Rattle.mrt_frame.specs.declared.cut.Cut.{Cut};
ghost use Rattle.mrt_frame.specs.declared.read_state.ReadState.TheVariants.{Ended};

use crate::device::Source;

/// The bytes of a file are cut into records and a rest in exactly one way, and that is what `cuts` yields.
pub fn cutting_is_unique()
    ensures some { (offset : ℕ) (bytes : List ℕ) →
        ((records : List (List ℕ)) × (rest : List ℕ) × IsCutting offset bytes records rest) }
    ensures only { (offset : ℕ) (bytes : List ℕ) (records others : List (List ℕ)) (rest left : List ℕ) →
        IsCutting offset bytes records rest → IsCutting offset bytes others left → (records ≡ others) × (rest ≡ left) }
    ensures cuts { (offset : ℕ) (bytes : List ℕ) (records : List (List ℕ)) (rest : List ℕ) →
        IsCutting offset bytes records rest → cuts offset bytes ≡ cuts_of offset records rest }
{}

/// What calls of `FrameReader::next` read joins; and what is so of each telling that agrees with what was read is so of
/// what a device tells.
pub fn tellings_are_of_what_was_read<R: Source>(_device: &R)
    ensures joined { (a b c : Position) (x y z : R) (first second : Option Cut) (taken more : List Cut) →
        Told R.reads x y (b.state ≡ Ended) (λ told left. TakesCuts a told b left taken) →
        Told R.reads y z (c.state ≡ Ended) (λ told left. TakesCuts b told c left more) →
        (b.state ≡ Ended → (c ≡ b) × (z ≡ y) × (more ≡ [])) →
        Told R.reads x z (c.state ≡ Ended) (λ told left. TakesCuts a told c left (taken ++ more)) }
    ensures cut { (old new : Position) (device left : R) (cut : Option Cut) →
        Told R.reads device left (new.state ≡ Ended) (NextIs old new cut) →
        NextIs old new cut (R.remaining device) (R.remaining left) }
    ensures part { (old : Position) (device left : R) (error : ReplayError) →
        Told R.reads device left ⊥ (PartIs old error) → PartIs old error (R.remaining device) (R.remaining left) }
{}

/// What calls of `FrameReader::next` took of one file joins, in order, and a reading from the file's
/// start to its end took all its cuts.
pub fn readings_give_all_cuts()
    ensures joined { (first second third : Position) (old mid new : Option (List ℕ)) (taken more : List Cut) →
        TakesCuts first old second mid taken → TakesCuts second mid third new more →
        TakesCuts first old third new (taken ++ more) }
    ensures whole { (file : ℕ) (last : Position) (bytes : List ℕ) (left : Option (List ℕ)) (taken : List Cut) →
        TakesCuts (start_of file) (Some bytes) last left taken → last.state ≡ Ended → taken ≡ cuts 0 bytes }
{}
