//! The units and refusals of files.

mod record;

ghost use Rattle.std.specs.Prelude.{◌≡◌, ℕ, List, ◌<◌, ◌≤◌, ◌≢◌, ◌^◌, ◌++◌, ◌-◌, None, [], take, drop, false, ◌↔◌, Ok, IfOk, IfErr, IfSome, length, option_to_list};
ghost use Rattle.mrt_body.specs.Pending.{units_lent};
ghost use Rattle.peer_units.specs.Plain.{Unit as ReplayUnit};
ghost use Rattle.mrt_body.specs.declared.lent_units.Lent.TheVariants as Lent;
ghost use Rattle.mrt_frame.specs.declared.read_state.ReadState.TheVariants.{Reading};
ghost use Rattle.mrt_body.specs.Units.{IsSmall, all_cuts, found_in};
ghost use Rattle.peer_units.specs.Payloads.{IsSmallUnit};
ghost use Rattle.mrt_frame.specs.Given.{Told};
ghost use Rattle.mrt_body.specs.Tellings.{AllTold, StopsTold, AllStopsTold};
ghost use Rattle.mrt_body.specs.ToCome.{CutsOne, TakesFound, UnitsState, GivesPending, Steps, refusals, cuts_to_come, found_to_come, fresh_units, index_peers, index_pending};
ghost use Rattle.mrt_body.specs.KnownPeers.{follows_peers};
ghost use Rattle.mrt_body.specs.Readings.{Gives, Ends, Stops, Stays, IsBounded, GivesCut, Lowers, StopsInFile, GoesOn, WantsMemory, StaysHere};

use crate::body_kind::{body_kind_of, is_extended};
use crate::body_unit::lent;
use crate::lent_units::{Lent, LentUnits};
use crate::record_place::RecordAt;
use crate::remarks::{RecordType, Remarker, Remarks};
use crate::rib_dumps::RibDumps;
use crate::rib_reader::Index;
use crate::waiting::Waiting;
use bgp_prefix::Memory;
use bgp_update::Unicast;
use mrt_frame::{Cut, FrameReader, ReadState, ReplayError, Source};
use peer_units::{Damage, DecodedEvents, Found, FoundOf, RibRule, Selection, StatePeers, UnitOf};
use record::refused;
use std::alloc::Global;
use std::marker::Model;

/// The units and refusals of files, one by one, with routes of one family.
#[derive(Drop)]
pub struct Units<F: Unicast = u32> {
    count: usize,
    file: usize,
    frames: FrameReader,
    index: Option<Index<F>>,
    dumps: RibDumps,
    /// Whether something is noted of the peers of units.
    follows_peers: bool,
    /// What is to be returned before the entries of the record cut last.
    waiting: Waiting<F>,
    /// The memory of a record that was cut before, into which the next one is read.
    spare: Option<Vec<u8>>,
    selection: Selection<F>,
    /// Where messages are decoded that are only selected by their prefixes. What is there has no meaning.
    decoded: DecodedEvents<F>,
    max_records: u64,
    records: u64,
    aside: u64,
    state: ReadState,
    remarker: Remarker,
}

impl<F: Unicast> Model for Units<F> {
    ghost use Rattle.std.specs.Prelude.{◌++◌};
    ghost use Rattle.mrt_body.specs.ToCome.{UnitsState, StandsWithin, index_peers, index_pending};

    ghost Value = { UnitsState };

    ghost view = { λ u. record {
      count = u.count;
      file = u.file;
      frames = u.frames;
      selection = u.selection;
      index = index_peers u.index;
      dumps = u.dumps;
      pending = u.waiting ++ index_pending u.index;
      max_records = u.max_records;
      records = u.records;
      aside = u.aside;
      state = u.state;
    } };

    ghost invariant = { λ u. StandsWithin u.count u.file u.frames u.selection u.follows_peers
        u.max_records u.records u.aside u.state };
}

impl<F: Unicast> Units<F> {
    /// Returns the units of these files, of which at most `max_records` whole records are cut. A unit
    /// that isn't selected is skipped.
    pub fn new(alloc: Global, count: usize, max_records: u64, selection: Selection<F>) -> Units<F>
        requires { (0 < max_records) × (max_records ≤ 2 ^ 47) }
        ensures fresh { result ≡ fresh_units count max_records selection }
        // All that the files hold is to come.
        ensures all { (contents : List (List ℕ)) → found_to_come result contents ≡ found_in selection contents }
        ensures cuts { (contents : List (List ℕ)) → cuts_to_come result contents ≡ all_cuts contents }
    {
        Units {
            count,
            file: 0,
            frames: FrameReader::new(0),
            index: None,
            dumps: RibDumps::new(alloc),
            follows_peers: follows_peers(&selection),
            waiting: Waiting::new(alloc),
            spare: None,
            selection,
            decoded: DecodedEvents::new(alloc),
            max_records,
            records: 0,
            aside: 0,
            state: ReadState::Reading,
            remarker: Remarker::new(alloc),
        }
    }

    /// The number of files.
    pub fn count(&self) -> usize
        ensures { result ≡ self.now.count }
    {
        self.count
    }

    /// How many whole records were cut.
    pub fn records(&self) -> u64
        ensures { result ≡ self.now.records }
    {
        self.records
    }

    /// How many of them are of a type or subtype that isn't read.
    pub fn aside(&self) -> u64
        ensures { result ≡ self.now.aside }
    {
        self.aside
    }

    /// Which units are selected.
    pub fn selection(&self) -> &Selection<F> {
        &self.selection
    }

    /// What is remarkable about the records that were cut. No unit depends on it.
    pub fn remarks(&self) -> Remarks {
        *self.remarker.remarks()
    }

    /// Returns what comes next: a unit, a record that is refused, or `None` at the end of the last file.
    /// After `Read` each call returns the same `Read`; after `Memory` or `Records` each returns
    /// `Spent`.
    pub fn next<R: Source>(
        &mut self,
        alloc: Global,
        files: &mut [R],
    ) -> Result<Option<FoundOf<F>>, ReplayError>
        requires { length files.old ≡ self.old.count }
        ensures gives { IfOk result (λ found. Gives R.remaining R.failure_count self.old files.old
            self.new files.new (option_to_list found)) }
        ensures told { IfOk result (λ found. AllTold R.reads files.old files.new self.old.file self.new.file
            (λ told left. TakesFound self.old told self.new left (option_to_list found))) }
        ensures stops_told { IfErr result (λ error. self.old.state ≡ Reading →
            AllTold R.reads files.old files.new self.old.file self.new.file
            (AllStopsTold self.old self.new error)) }
        ensures ends { IfOk result (λ found. found ≡ None → Ends R.remaining self.old files.old self.new) }
        ensures stops { IfErr result
            (Stops R.remaining R.failure_count self.old files.old self.new files.new) }
        ensures stays { Stays self.old files.old self.new files.new result }
        ensures bounds { IsBounded self.old files.old self.new files.new }
        ensures small { IfOk result (λ found. IfSome found IsSmall) }
    {
        match self.advance(alloc, files) {
            Ok(Some(damage)) => Ok(Some(Found::Refused(damage))),
            Ok(None) => match self.next_pending(alloc)? {
                Some(unit) => Ok(Some(Found::Unit(unit))),
                None => Ok(None),
            },
            Err(error) => Err(error),
        }
    }

    /// Reads on to the next unit, which `lend` then lends, or to the next record that is refused, which it returns.
    /// Returns `None` where a unit is to be returned: at once while one is left. At the end of the last file it returns
    /// `None` as well, and no unit is left. Errors are those of `next`.
    pub fn advance<R: Source>(
        &mut self,
        alloc: Global,
        files: &mut [R],
    ) -> Result<Option<Damage>, ReplayError>
        requires { length files.old ≡ self.old.count }
        ensures gives { IfOk result (λ refused. Gives R.remaining R.failure_count self.old files.old
            self.new files.new (refusals refused)) }
        ensures told { IfOk result (λ refused. AllTold R.reads files.old files.new self.old.file self.new.file
            (λ told left. TakesFound self.old told self.new left (refusals refused))) }
        ensures stops_told { IfErr result (λ error. self.old.state ≡ Reading →
            AllTold R.reads files.old files.new self.old.file self.new.file
            (AllStopsTold self.old self.new error)) }
        ensures ends { IfOk result
            (λ refused. refused ≡ None → self.new.pending ≡ [] → Ends R.remaining self.old files.old self.new) }
        ensures stops { IfErr result
            (Stops R.remaining R.failure_count self.old files.old self.new files.new) }
        ensures stays { Stays self.old files.old self.new files.new result }
        ensures bounds { IsBounded self.old files.old self.new files.new }
    {
        match self.state {
            ReadState::Failed => Err(ReplayError::Read { file: self.file }),
            ReadState::Spent => Err(ReplayError::Spent),
            // The end is that of the last file, and no state of its own.
            ReadState::Ended => unreachable!(),
            ReadState::Reading => 'files: loop {
                if self.is_pending() {
                    return Ok(None);
                }
                if self.file == self.count {
                    return Ok(None);
                }
                match self.step(alloc, &mut files[self.file]) {
                    Ok(Some(damage)) => return Ok(Some(damage)),
                    Ok(None) => {}
                    Err(error) => return Err(error),
                }
            },
        }
    }

    /// The selection is of the type's family.
    #[inline(always)]
    fn is_known(&self)
        ensures { self.now.selection.rules.family ≡ F.family }
    {
        let _rules = self.selection.rules();
    }

    /// Whether a unit of the record that was cut last is to be returned.
    #[inline(always)]
    #[tactic(auto, using(crate::proofs::WaitingLaws::both_none))]
    fn is_pending(&self) -> bool
        ensures { result ≡ false ↔ (self.now.pending ≡ []) }
    {
        if self.waiting.is_pending() {
            return true;
        }
        match &self.index {
            Some(index) => index.is_pending(),
            None => false,
        }
    }

    /// Lends the next pending units of the record that was cut last, which `next` would return: all entries that are
    /// left of a RIB record, or one unit. `consume` leaves them behind. `Lent::None` if none is pending, or after an
    /// error.
    #[inline(always)]
    pub fn lend(&self) -> LentUnits<'_, F>
        ensures lends { self.now.pending ≡ units_lent result ++ drop (length (units_lent result)) self.now.pending }
        ensures reading { units_lent result ≢ [] → self.now.state ≡ Reading }
        ensures none { units_lent result ≡ [] → self.now.state ≡ Reading → self.now.pending ≡ [] }
        ensures all { (units : List ReplayUnit) → result ≡ Lent.Entries units → self.now.pending ≡ units }
        ensures small { (unit : ReplayUnit) → result ≡ Lent.Unit unit → IsSmallUnit unit }
    {
        let ReadState::Reading = self.state else {
            return Lent::None;
        };
        if let Some(unit) = self.waiting.lend() {
            return Lent::Unit(lent(unit));
        }
        match &self.index {
            Some(index) => match index.lend() {
                Some(entries) => Lent::Entries(entries),
                None => Lent::None,
            },
            None => Lent::None,
        }
    }

    /// Leaves so many of the pending units behind, or all if there are fewer: `next` returns what comes after them.
    #[inline(always)]
    pub fn consume(&mut self, count: usize)
        ensures consumes { GivesPending self.old self.new (take count self.old.pending) }
    {
        let left = consume_waiting(&mut self.waiting, &mut self.spare, count);
        consume_entries(&mut self.index, left);
    }

    /// Keeps the memory of the last RIB record, whose entries were returned, for the next record.
    #[tactic(auto, using(crate::proofs::WaitingLaws::both_none))]
    fn reuse_record(&mut self)
        requires { self.old.pending ≡ [] }
        ensures { self.new ≡ self.old }
    {
        if let Some(index) = &mut self.index {
            if let Some(block) = index.take_block() {
                self.spare = kept_block(block);
            }
        }
    }

    /// Returns the unit that is lent first, with a copy of its bytes.
    fn copy_next(&self, alloc: Global) -> Result<Option<UnitOf<F>>, Memory>
        ensures copies { IfOk result (λ unit. self.now.pending ≡ option_to_list unit ++ drop (length (option_to_list unit)) self.now.pending) }
        ensures ended { self.now.state ≡ Reading → IfOk result (λ unit. unit ≡ None → self.now.pending ≡ []) }
        ensures none { self.now.pending ≡ [] → result ≡ Ok None }
        ensures small { IfOk result (λ unit. IfSome unit IsSmallUnit) }
    {
        let unit = match self.lend() {
            Lent::None => return Ok(None),
            Lent::Unit(unit) => unit,
            Lent::Entries(mut entries) => match entries.next() {
                Some((unit, _)) => unit,
                None => return Ok(None),
            },
        };
        Ok(Some(unit.to_unit(alloc)?))
    }

    /// Returns the next unit of the record that was cut last.
    fn next_pending(&mut self, alloc: Global) -> Result<Option<UnitOf<F>>, ReplayError>
        requires { self.old.state ≡ Reading }
        ensures gives { IfOk result (λ unit. GivesPending self.old self.new (option_to_list unit)) }
        ensures ended { IfOk result (λ unit. unit ≡ None → self.old.pending ≡ []) }
        ensures none { self.old.pending ≡ [] → result ≡ Ok None }
        ensures stops { IfErr result (WantsMemory self.new) }
        ensures stays { StaysHere self.old self.new }
        ensures small { IfOk result (λ unit. IfSome unit IsSmallUnit) }
    {
        match self.copy_next(alloc) {
            Ok(unit) => {
                self.consume(1);
                Ok(unit)
            }
            Err(_) => {
                self.state = ReadState::Spent;
                Err(ReplayError::Memory)
            }
        }
    }

    /// Cuts the current file once. At its end the next file becomes the current one.
    fn cut<R: Source>(&mut self, alloc: Global, reader: &mut R) -> Result<Option<Cut>, ReplayError>
        requires reading { self.old.state ≡ Reading }
        requires within { self.old.file < self.old.count }
        ensures gives { IfOk result (GivesCut R.remaining R.failure_count self.old reader.old self.new reader.new) }
        ensures stops { IfErr result
            (StopsInFile R.remaining R.failure_count self.old reader.old self.new reader.new) }
        ensures told { IfOk result (λ cut. Told R.reads reader.old reader.new (self.old.file < self.new.file)
            (λ told left. CutsOne self.old told self.new left cut)) }
        ensures stops_told { IfErr result (λ error. Told R.reads reader.old reader.new ⊥
            (StopsTold self.old self.new error)) }
        ensures bounds { GoesOn self.old self.new }
        ensures counted { self.old.aside ≤ self.old.records }
    {
        let block = match self.spare.take() {
            Some(block) => block,
            None => Vec::new(alloc),
        };
        match self.frames.next_into(block, reader) {
            Ok(Some(Cut::Whole(record))) => {
                if self.records == self.max_records {
                    self.state = ReadState::Spent;
                    return Err(ReplayError::Records);
                }
                self.records += 1;
                Ok(Some(Cut::Whole(record)))
            }
            Ok(end) => {
                self.file += 1;
                self.frames = FrameReader::new(self.file);
                self.index = None;
                self.waiting.leave_out();
                Ok(end)
            }
            Err(error) => {
                self.state = ReadState::after(error);
                Err(error)
            }
        }
    }

    /// Cuts the current file once, and returns what comes of it first, if anything but entries does.
    #[inline(never)]
    fn step<R: Source>(
        &mut self,
        alloc: Global,
        reader: &mut R,
    ) -> Result<Option<Damage>, ReplayError>
        requires reading { self.old.state ≡ Reading }
        requires within { self.old.file < self.old.count }
        requires given { self.old.pending ≡ [] }
        ensures gives { IfOk result (λ refused. Steps self.old (R.remaining reader.old)
            self.new (R.remaining reader.new) (refusals refused)) }
        ensures told { IfOk result (λ refused. Told R.reads reader.old reader.new (self.old.file < self.new.file)
            (λ told left. Steps self.old told self.new left (refusals refused))) }
        ensures stops_told { IfErr result (λ error. Told R.reads reader.old reader.new ⊥
            (StopsTold self.old self.new error)) }
        ensures lowers { IfOk result (Lowers R.failure_count self.old reader.old self.new reader.new) }
        ensures stops { IfErr result
            (StopsInFile R.remaining R.failure_count self.old reader.old self.new reader.new) }
        ensures bounds { GoesOn self.old self.new }
    {
        self.is_known();
        let file = self.file;
        self.reuse_record();
        match self.cut(alloc, reader)? {
            None => Ok(None),
            Some(Cut::Broken { offset, fault }) => {
                let at = RecordAt {
                    file,
                    offset,
                    seconds: 0,
                };
                Ok(Some(refused(at, fault)))
            }
            Some(Cut::Whole(record)) => {
                let at = RecordAt {
                    file,
                    offset: record.offset,
                    seconds: record.seconds,
                };
                let record_type = RecordType {
                    kind: record.kind,
                    subtype: record.subtype,
                };
                let content = body_kind_of::<F>(record.kind, record.subtype);
                self.take(
                    alloc,
                    at,
                    record_type,
                    is_extended(record.kind),
                    content,
                    record.body,
                )
            }
        }
    }
}

/// Whether something is to be noted of the peers of units: where RIB dumps clear their tables, or state changes may be
/// theirs.
fn follows_peers<F: Unicast>(selection: &Selection<F>) -> bool
    ensures { result ≡ follows_peers selection.now }
{
    selection.ribs() == RibRule::Replace || selection.state_peers() != StatePeers::Recorded
}

/// Leaves so many of the units that wait behind, or all if there are fewer. Keeps the memory of their record. Returns
/// how many others are then still to be left behind.
#[inline(always)]
fn consume_waiting<F: Unicast>(
    waiting: &mut Waiting<F>,
    spare: &mut Option<Vec<u8>>,
    count: usize,
) -> usize
    ensures waiting { waiting.new ≡ drop count waiting.old }
    ensures left { result ≡ count - length waiting.old }
{
    let mut left = count;
    while 0 < left && waiting.is_pending() {
        if let Some(block) = waiting.consume() {
            *spare = kept_block(block);
        }
        left -= 1;
    }
    left
}

/// Leaves so many of the entries that are still to be returned behind, or all if there are fewer.
#[inline(always)]
fn consume_entries<F: Unicast>(index: &mut Option<Index<F>>, count: usize)
    ensures entries { index_pending index.new ≡ drop count (index_pending index.old) }
    ensures peers { index_peers index.new ≡ index_peers index.old }
{
    if let Some(index) = index {
        index.consume(count);
    }
}

/// How many bytes the memory may have that is kept for the next record. A record of the longest BGP message has
/// 65,535 and some more (RFC 8654).
const MOST_KEPT_BYTES: usize = 1 << 17;

/// Returns this memory, unless it is larger than what is kept.
fn kept_block(block: Vec<u8>) -> Option<Vec<u8>> {
    if MOST_KEPT_BYTES < block.capacity() {
        return None;
    }
    Some(block)
}
