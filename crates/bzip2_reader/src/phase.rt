// How the bytes of a file end.
ghost use Rattle.std.specs.Prelude.{◌≡◌, IsTrue, None, Some};
ghost use Rattle.bzip2_reader.specs.Endings.{agrees, phase_of};
ghost use Rattle.bzip2_reader.specs.declared.phase.Phase.TheVariants.{Open, Ended};

use crate::fault::Damage;

/// Whether more bytes can come.
#[derive(Clone, Copy, Debug, PartialEq, Eq, Drop)]
pub(crate) enum Phase {
    /// There may be more.
    Open,
    /// All that could be given was given.
    Ended,
    /// Reading failed.
    Broken,
}

/// Whether more bytes can come, and what ended them.
#[derive(Clone, Copy, Drop)]
pub(crate) struct Ending {
    phase: Phase,
    damage: Option<Damage>,
    ghost agreeing: { IsTrue (agrees phase damage) },
}

impl Ending {
    /// There may be more.
    pub(crate) fn open() -> Ending
        ensures phase { result.phase ≡ Open }
        ensures damage { result.damage ≡ None }
    {
        Ending {
            phase: Phase::Open,
            damage: None,
        }
    }

    /// The last stream ended.
    pub(crate) fn whole() -> Ending
        ensures phase { result.phase ≡ Ended }
        ensures damage { result.damage ≡ None }
    {
        Ending {
            phase: Phase::Ended,
            damage: None,
        }
    }

    /// The damage ends the bytes, or is that they can't be read.
    pub(crate) fn damaged(damage: Damage) -> Ending
        ensures phase { result.phase ≡ phase_of damage }
        ensures damage { result.damage ≡ Some damage }
    {
        let phase = if damage.cause.is_failure() {
            Phase::Broken
        } else {
            Phase::Ended
        };
        Ending {
            phase,
            damage: Some(damage),
        }
    }

    pub(crate) fn phase(&self) -> Phase
        ensures { result ≡ self.now.phase }
    {
        self.phase
    }

    pub(crate) fn damage(&self) -> Option<Damage>
        ensures { result ≡ self.now.damage }
    {
        self.damage
    }
}
