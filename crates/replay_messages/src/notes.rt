//! Notes on the dumps of a complete run, on standard error: what about them is likely not meant. A note is a line that
//! begins with two spaces and `note: `; no report and no status depends on it.

use command_line::{AddressFamily, FileName, RecordKind};
use mrt_body::{Few, Marked, RecordType, Unread};
use peer_units::{PeerAddr, PeerChoice, PeerKey, RibRule, StatePeers};
use replay_io::Input;
use replay_summary::{PeerRemarks, Summary};
use std::alloc::{AllocError, Global};

/// The most files or peers that a note names.
const MOST_NAMES: usize = 5;

/// What a run was asked for, as far as notes depend on it.
#[derive(Clone, Copy)]
pub struct NoteContext {
    pub family: AddressFamily,
    pub ribs: RibRule,
    pub state_peers: StatePeers,
    /// Whether prefixes are chosen.
    pub of_prefixes: bool,
    /// Whether a share of the peers is chosen.
    pub of_share: bool,
    /// Whether what happened is counted from a second on alone.
    pub has_since: bool,
}

/// Names, split by commas. Further ones are counted.
#[derive(Drop)]
struct Names {
    text: String,
    count: usize,
}

impl Names {
    fn new(alloc: Global) -> Names {
        Names {
            text: String::new(alloc),
            count: 0,
        }
    }

    /// Adds a name, if there are fewer than five.
    fn add(&mut self, name: &str) -> Result<(), AllocError> {
        if self.count < MOST_NAMES {
            if self.count > 0 {
                self.text.push_str(", ")?;
            }
            self.text.push_str(name)?;
        }
        self.count = self.count.saturating_add(1);
        Ok(())
    }

    /// Adds how many names were left out.
    fn end(&mut self, alloc: Global) -> Result<(), AllocError> {
        let others = self.count.saturating_sub(MOST_NAMES);
        if others > 0 {
            let more = format!(in alloc; " and {others} more")?;
            self.text.push_str(more.as_str())?;
        }
        Ok(())
    }
}

/// Returns the name of the dump at this index.
fn name_of(alloc: Global, inputs: &[Input<'_, '_>], file: usize) -> Result<String, AllocError> {
    let name = match inputs.get(file) {
        Some(input) => input.device().name(),
        None => "",
    };
    let shown = FileName(name);
    Ok(format!(in alloc; "{shown}")?)
}

/// Returns the names of the files that have such records.
fn names_of(
    alloc: Global,
    marked: &Marked,
    inputs: &[Input<'_, '_>],
) -> Result<String, AllocError> {
    let mut names = Names::new(alloc);
    for file in marked.first_files() {
        names.add(name_of(alloc, inputs, *file)?.as_str())?;
    }
    names.count = marked.files();
    names.end(alloc)?;
    Ok(names.text)
}

/// Returns the text of an address, in full.
fn address_text(alloc: Global, addr: PeerAddr) -> Result<String, AllocError> {
    match addr {
        PeerAddr::V4(addr) => {
            let [a, b, c, d] = addr.to_be_bytes();
            Ok(format!(in alloc; "{a}.{b}.{c}.{d}")?)
        }
        PeerAddr::V6(addr) => {
            let mut text = String::new(alloc);
            for group in 0u32..8 {
                let value = (addr >> (112 - 16 * group)) & 0xFFFF;
                let digits = format!(in alloc; "{value:04x}")?;
                text.push_str(digits.as_str())?;
                if group < 7 {
                    text.push(':')?;
                }
            }
            Ok(text)
        }
    }
}

/// What a note names.
trait Named: Copy {
    /// Returns its name.
    fn name(self, alloc: Global) -> Result<String, AllocError>;
}

/// A peer as reports print it, with its address in full.
impl Named for PeerKey {
    fn name(self, alloc: Global) -> Result<String, AllocError> {
        let asn = self.asn;
        let address = address_text(alloc, self.addr)?;
        format!(in alloc; "{asn} {address}")
    }
}

/// A choice of peers as the option has it, with its address in full.
impl Named for PeerChoice {
    fn name(self, alloc: Global) -> Result<String, AllocError> {
        let asn = self.asn;
        match self.addr {
            Some(addr) => {
                let address = address_text(alloc, addr)?;
                format!(in alloc; "{asn},{address}")
            }
            None => format!(in alloc; "{asn}"),
        }
    }
}

/// A peer, with how many units are its.
impl Named for (PeerKey, u64) {
    fn name(self, alloc: Global) -> Result<String, AllocError> {
        let (peer, units) = self;
        let peer = peer.name(alloc)?;
        format!(in alloc; "{peer} ({units})")
    }
}

/// Returns the names of the first ones, and how many others there are.
fn names_of_few<T: Named>(alloc: Global, few: &Few<T>) -> Result<String, AllocError> {
    let mut names = Names::new(alloc);
    for named in few.first() {
        if let Some(one) = named {
            names.add(one.name(alloc)?.as_str())?;
        }
    }
    names.count = few.count();
    names.end(alloc)?;
    Ok(names.text)
}

/// Returns the note on units of peers that weren't up.
fn idle_note(alloc: Global, remarks: &PeerRemarks) -> Result<String, AllocError> {
    let names = names_of_few(alloc, &remarks.idle)?;
    let units = remarks.idle_units;
    Ok(format!(in alloc;
        "units that changed nothing, since their peer wasn't up: {units}, of {names}; --states established takes them"
    )?)
}

/// Whether it is no address.
fn is_zero(addr: PeerAddr) -> bool {
    match addr {
        PeerAddr::V4(addr) => addr == 0,
        PeerAddr::V6(addr) => addr == 0,
    }
}

/// Whether peers of which nothing came but state changes are told: others announced or withdrew keys, and no option
/// says whose state changes are.
fn tells_silent(remarks: &PeerRemarks, asked: NoteContext) -> bool {
    let sees_all = !asked.of_prefixes && !asked.has_since;
    sees_all
        && asked.state_peers == StatePeers::Recorded
        && remarks.silent.count() > 0
        && remarks.keys > 0
}

/// Returns the note on peers of which nothing came but state changes, which may be those of other peers.
fn silent_note(alloc: Global, silent: &Few<PeerKey>) -> Result<String, AllocError> {
    let names = names_of_few(alloc, silent)?;
    let count = silent.count();
    let rule = match silent.first().first() {
        Some(Some(peer)) if is_zero(peer.addr) => "by-as",
        _ => "local",
    };
    Ok(format!(in alloc;
        "peers of which nothing came but state changes: {count}, {names}; --state-peers {rule} takes these for those of other peers"
    )?)
}

/// Returns the note on peers whose End-of-RIB marker came again.
fn begun_again_note(alloc: Global, peers: &Few<PeerKey>) -> Result<String, AllocError> {
    let names = names_of_few(alloc, peers)?;
    let count = peers.count();
    Ok(format!(in alloc;
        "peers that sent an End-of-RIB marker again, without a state change between: {count}, {names}; what they had before stays"
    )?)
}

/// Returns the notes on peers and prefixes that are chosen, and of which nothing came.
fn chosen_notes(
    alloc: Global,
    remarks: &PeerRemarks,
    asked: NoteContext,
) -> Result<(Option<String>, Option<String>), AllocError> {
    let mut peers = None;
    if remarks.unheard.count() > 0 && !asked.of_share {
        let names = names_of_few(alloc, &remarks.unheard)?;
        peers = Some(format!(in alloc; "chosen peers of which nothing came: {names}")?);
    }
    let mut prefixes = None;
    if asked.of_prefixes && !asked.has_since && remarks.keys == 0 {
        prefixes = Some(format!(in alloc; "no chosen prefix is announced or withdrawn")?);
    }
    Ok((peers, prefixes))
}

/// Returns the note on files without a whole record, and the one on files that begin before the file named before them.
fn order_notes(
    alloc: Global,
    inputs: &[Input<'_, '_>],
) -> Result<(Option<String>, Option<String>), AllocError> {
    let mut empty = Names::new(alloc);
    let mut early = Names::new(alloc);
    let mut before: Option<u32> = None;
    for (file, input) in inputs.iter().enumerate() {
        let first = input.device().first_second();
        match (first, before) {
            (None, _) => empty.add(name_of(alloc, inputs, file)?.as_str())?,
            (Some(first), Some(before)) if first < before => {
                early.add(name_of(alloc, inputs, file)?.as_str())?;
            }
            _ => {}
        }
        before = first;
    }
    Ok((
        note_of(alloc, "files without a whole record", empty)?,
        note_of(
            alloc,
            "files whose first record is older than that of the file named before",
            early,
        )?,
    ))
}

/// Returns a note on these names, if there are any.
fn note_of(alloc: Global, what: &str, mut names: Names) -> Result<Option<String>, AllocError> {
    if names.count == 0 {
        return Ok(None);
    }
    names.end(alloc)?;
    let text = names.text;
    Ok(Some(format!(in alloc; "{what}: {text}")?))
}

/// Returns the note on RIB dumps that add up, if there are several.
fn dumps_note(
    alloc: Global,
    dumps: &Marked,
    ribs: RibRule,
    inputs: &[Input<'_, '_>],
) -> Result<Option<String>, AllocError> {
    let records = dumps.records();
    if ribs == RibRule::Replace || records < 2 {
        return Ok(None);
    }
    let names = names_of(alloc, dumps, inputs)?;
    Ok(Some(format!(in alloc;
        "RIB dumps that add up in the tables, where routes of a former one stay: {records}, in {names}; --rib replace clears the tables at each"
    )?))
}

/// Returns the name of a family and that of the other one.
fn names_of_families(family: AddressFamily) -> (&'static str, &'static str) {
    match family {
        AddressFamily::Ipv4 => ("IPv4", "IPv6"),
        AddressFamily::Ipv6 => ("IPv6", "IPv4"),
    }
}

/// Returns the note on TABLE_DUMP records that were set aside.
fn table_dumps_note(
    alloc: Global,
    table_dumps: &Marked,
    inputs: &[Input<'_, '_>],
) -> Result<String, AllocError> {
    let records = table_dumps.records();
    let names = names_of(alloc, table_dumps, inputs)?;
    Ok(format!(in alloc;
        "no RIB record but those of TABLE_DUMP, which aren't read: {records}, in {names}; --table-dump read takes them"
    )?)
}

/// Returns the names of a type and a subtype.
fn type_text(alloc: Global, record_type: RecordType) -> Result<String, AllocError> {
    let RecordType { kind, subtype } = record_type;
    let kind = RecordKind { kind, subtype };
    Ok(format!(in alloc; "{kind}")?)
}

/// Returns the note on records of types that aren't read.
fn unread_note(
    alloc: Global,
    unread: &Unread,
    inputs: &[Input<'_, '_>],
) -> Result<String, AllocError> {
    let mut types = Names::new(alloc);
    for record_type in unread.first_types() {
        if let Some(record_type) = record_type {
            types.add(type_text(alloc, *record_type)?.as_str())?;
        }
    }
    if unread.has_others() {
        types.text.push_str(" and others")?;
    }
    let records = unread.records().records();
    let names = names_of(alloc, unread.records(), inputs)?;
    let types = types.text;
    Ok(format!(in alloc;
        "no unit, and records of types that aren't read: {records}, in {names}, of {types}"
    )?)
}

/// Returns the notes on a run, in their order.
fn notes_of(
    alloc: Global,
    summary: &Summary,
    asked: NoteContext,
    inputs: &[Input<'_, '_>],
) -> Result<Vec<String>, AllocError> {
    let remarks = summary.remarks;
    let peer_remarks = summary.peer_remarks;
    let mut notes = Vec::new(alloc);
    if peer_remarks.idle_units > 0 {
        notes.push(idle_note(alloc, &peer_remarks)?)?;
    }
    if tells_silent(&peer_remarks, asked) {
        notes.push(silent_note(alloc, &peer_remarks.silent)?)?;
    }
    let (peers, prefixes) = chosen_notes(alloc, &peer_remarks, asked)?;
    if let Some(note) = peers {
        notes.push(note)?;
    }
    if let Some(note) = prefixes {
        notes.push(note)?;
    }
    if remarks.begun_again.count() > 0 {
        notes.push(begun_again_note(alloc, &remarks.begun_again)?)?;
    }
    if remarks.ribs == 0 && remarks.other_family.records() > 0 {
        let records = remarks.other_family.records();
        let names = names_of(alloc, &remarks.other_family, inputs)?;
        let (asked, other) = names_of_families(asked.family);
        notes.push(format!(in alloc;
            "no RIB record of {asked} routes, and {records} of {other} routes, which aren't read: {names}"
        )?)?;
    }
    if remarks.ribs == 0 && remarks.table_dumps.records() > 0 {
        notes.push(table_dumps_note(alloc, &remarks.table_dumps, inputs)?)?;
    }
    if summary.units == 0 && remarks.unread.records().records() > 0 {
        notes.push(unread_note(alloc, &remarks.unread, inputs)?)?;
    }
    let (empty, early) = order_notes(alloc, inputs)?;
    if let Some(note) = empty {
        notes.push(note)?;
    }
    if let Some(note) = early {
        notes.push(note)?;
    }
    if let Some(note) = dumps_note(alloc, &remarks.dumps, asked.ribs, inputs)? {
        notes.push(note)?;
    }
    if remarks.repeats.records() > 0 {
        let records = remarks.repeats.records();
        let names = names_of(alloc, &remarks.repeats, inputs)?;
        notes.push(format!(in alloc;
            "RIB records without path identifiers that name a peer twice: {records}, in {names}"
        )?)?;
    }
    Ok(notes)
}

/// Reports what is remarkable about the dumps, or that there is no memory for it.
pub fn tell_notes(
    rt: &HostRuntime,
    summary: &Summary,
    asked: NoteContext,
    inputs: &[Input<'_, '_>],
) {
    match notes_of(rt.alloc(), summary, asked, inputs) {
        Ok(notes) => {
            for note in &notes {
                let _ = eprintln!(rt; "  note: {note}");
            }
            if summary.remarks.is_partial {
                tell_missing(rt);
            }
        }
        Err(_) => tell_missing(rt),
    }
}

/// Reports that there was no memory for notes.
fn tell_missing(rt: &HostRuntime) {
    let _ = eprintln!(rt; "  note: notes are missing, since memory ran out");
}
