// Records, one by one, from a reader.
ghost use Rattle.std.specs.Prelude.{true, false, ◌≡◌, ◌<◌, ◌≤◌, ◌+◌, Option, Some, None, IfOk, IfErr, IfSome, OnOk, OnErr, Ok, Err, length, vec_len};
ghost use Rattle.std.specs.Io.KnownBytes.{Consumes, IsAtEnd};
ghost use Rattle.mrt_frame.specs.Cuts.{record_limit};
ghost use Rattle.mrt_frame.specs.Frames.{Position, IsFirstCut, ReadsFewer, ReadsNoMoreThan, ReadsPart, StandsAt, IsReadCause, Gives, Stops, Stays, IsBounded, start_of};
ghost use Rattle.mrt_frame.specs.declared.read_state.ReadState.TheVariants.{Reading, Ended};
ghost use Rattle.mrt_frame.specs.Given.{StopsIn, ReadsFirst, ReadsPartOf, Told, NextIs, PartIs};

use crate::cut::{Cut, Record};
use crate::device::Source;
use crate::error::ReplayError;
use crate::fault::Fault;
use crate::filling::read_full;
use crate::header::{HEADER_SIZE, Header, is_within_limits};
use crate::read_state::ReadState;
use bgp_prefix::Sequence;
use std::alloc::Global;
use std::marker::Model;

/// Cuts what a reader returns into records, and holds one at a time.
#[derive(Debug, Drop)]
pub struct FrameReader {
    file: usize,
    offset: u64,
    state: ReadState,
}

impl Model for FrameReader {
    ghost use Rattle.std.specs.Prelude.{◌≤◌};
    ghost use Rattle.mrt_frame.specs.Cuts.{file_limit};
    ghost use Rattle.mrt_frame.specs.Frames.{Position};

    ghost Value = { Position };

    ghost view = { λ r. record { file = r.file; offset = r.offset; state = r.state } };

    ghost invariant = { λ r. r.offset ≤ file_limit };
}

impl FrameReader {
    /// Starts at the beginning of the file of this number.
    pub fn new(file: usize) -> FrameReader
        ensures { result ≡ start_of file }
    {
        FrameReader {
            file,
            offset: 0,
            state: ReadState::Reading,
        }
    }

    /// Returns the next cut, or `None` at the end and after a broken one.
    pub fn next<R: Source>(
        &mut self,
        alloc: Global,
        reader: &mut R,
    ) -> Result<Option<Cut>, ReplayError>
        ensures gives { IfOk result
            (Gives R.remaining R.failure_count self.old reader.old self.new reader.new) }
        ensures stops { IfErr result
            (Stops R.remaining R.failure_count self.old reader.old self.new reader.new) }
        ensures told { IfOk result (λ cut. Told R.reads reader.old reader.new (self.new.state ≡ Ended)
            (NextIs self.old self.new cut)) }
        ensures part { IfErr result (λ error. self.old.state ≡ Reading →
            Told R.reads reader.old reader.new ⊥ (PartIs self.old error)) }
        ensures bounds { IsBounded R.remaining self.old reader.old self.new reader.new }
        ensures stays { Stays self.old reader.old self.new reader.new result }
    {
        self.next_into(Vec::new(alloc), reader)
    }

    /// Like `next`, but reads the body into this block of memory, so that one buffer serves all records. Its contents
    /// are replaced; it grows as needed.
    #[inline(always)]
    pub fn next_into<R: Source>(
        &mut self,
        block: Vec<u8>,
        reader: &mut R,
    ) -> Result<Option<Cut>, ReplayError>
        ensures gives { IfOk result
            (Gives R.remaining R.failure_count self.old reader.old self.new reader.new) }
        ensures stops { IfErr result
            (Stops R.remaining R.failure_count self.old reader.old self.new reader.new) }
        ensures told { IfOk result (λ cut. Told R.reads reader.old reader.new (self.new.state ≡ Ended)
            (NextIs self.old self.new cut)) }
        ensures part { IfErr result (λ error. self.old.state ≡ Reading →
            Told R.reads reader.old reader.new ⊥ (PartIs self.old error)) }
        ensures bounds { IsBounded R.remaining self.old reader.old self.new reader.new }
        ensures stays { Stays self.old reader.old self.new reader.new result }
    {
        match self.state {
            ReadState::Reading => self.advance(block, reader),
            ReadState::Ended => Ok(None),
            ReadState::Failed => Err(ReplayError::Read { file: self.file }),
            ReadState::Spent => Err(ReplayError::Spent),
        }
    }

    fn advance<R: Source>(
        &mut self,
        block: Vec<u8>,
        reader: &mut R,
    ) -> Result<Option<Cut>, ReplayError>
        requires { self.old.state ≡ ReadState.Reading }
        ensures gives { IfOk result
            (Gives R.remaining R.failure_count self.old reader.old self.new reader.new) }
        ensures stops { IfErr result
            (Stops R.remaining R.failure_count self.old reader.old self.new reader.new) }
        ensures told { IfOk result (λ cut. Told R.reads reader.old reader.new (self.new.state ≡ Ended)
            (NextIs self.old self.new cut)) }
        ensures part { IfErr result (λ error. self.old.state ≡ Reading →
            Told R.reads reader.old reader.new ⊥ (PartIs self.old error)) }
        ensures bounds { IsBounded R.remaining self.old reader.old self.new reader.new }
    {
        let result = read_cut(block, self.file, self.offset, reader);
        match &result {
            Ok(Some(Cut::Whole(record))) => {
                self.offset += u64::from(HEADER_SIZE) + record.body.as_slice().len() as u64;
            }
            Ok(_) => self.state = ReadState::Ended,
            Err(error) => self.state = ReadState::after(*error),
        }
        result
    }
}

/// Returns the first cut of what the reader will still return, which is at this offset of the file. A body is read into
/// this block of memory.
fn read_cut<R: Source>(
    block: Vec<u8>,
    file: usize,
    offset: u64,
    reader: &mut R,
) -> Result<Option<Cut>, ReplayError>
    ensures first { IfOk result (IsFirstCut offset (R.remaining reader.old) (R.remaining reader.new)) }
    ensures place { IfOk result (λ cut. IfSome cut (StandsAt offset)) }
    ensures part { IfErr result (ReadsPart offset (R.remaining reader.old) (R.remaining reader.new)) }
    ensures cause { IfErr result (IsReadCause file (R.failure_count reader.old) (R.failure_count reader.new)) }
    ensures counted { OnOk result (R.failure_count reader.new ≡ R.failure_count reader.old) }
    ensures reads { ReadsNoMoreThan record_limit (R.remaining reader.old) (R.remaining reader.new) }
    ensures read { IfOk result (ReadsFirst R.reads offset reader.old reader.new) }
    ensures stopped { IfErr result (ReadsPartOf R.reads offset reader.old reader.new) }
{
    let mut header = [0; 12];
    let Ok(count) = read_full(reader, &mut header) else {
        return Err(ReplayError::Read { file });
    };
    if count == 0 {
        return Ok(None);
    }
    if count < header.len() {
        return Ok(Some(Cut::Broken {
            offset,
            fault: Fault::ShortHeader,
        }));
    }
    let header = Header::parse(&header);
    if !is_within_limits(offset, header.length) {
        return Ok(Some(Cut::Broken {
            offset,
            fault: Fault::BodyTooLong,
        }));
    }
    let bytes = read_body(block, file, header.length, reader)?;
    if bytes.len() < header.length as usize {
        return Ok(Some(Cut::Broken {
            offset,
            fault: Fault::ShortBody,
        }));
    }
    Ok(Some(Cut::Whole(Record {
        offset,
        seconds: header.seconds,
        kind: header.kind,
        subtype: header.subtype,
        body: Sequence::from_vec(bytes),
    })))
}

/// Reads the next bytes of the reader: this many, or all of them if it ends earlier. They replace what the block holds.
fn read_body<R: Source>(
    block: Vec<u8>,
    file: usize,
    length: u32,
    reader: &mut R,
) -> Result<Vec<u8>, ReplayError>
    ensures bound { IfOk result (λ body. vec_len body ≤ length) }
    ensures bytes { IfOk result (λ body. Consumes (R.remaining reader.old) (R.remaining reader.new) body.items) }
    ensures end { IfOk result (λ body. vec_len body < length → IsAtEnd (R.remaining reader.new)) }
    ensures cause { IfErr result (IsReadCause file (R.failure_count reader.old) (R.failure_count reader.new)) }
    ensures counted { OnOk result (R.failure_count reader.new ≡ R.failure_count reader.old) }
    ensures part { IfErr result (ReadsFewer length (R.remaining reader.old) (R.remaining reader.new)) }
    ensures err { OnErr result (ReadsNoMoreThan length (R.remaining reader.old) (R.remaining reader.new)) }
    ensures full { IfOk result (λ body. length ≤ vec_len body → R.reads reader.old body.items false reader.new) }
    ensures short { IfOk result (λ body. vec_len body < length → R.reads reader.old body.items true reader.new) }
    ensures stopped { IfErr result (StopsIn R.reads length reader.old reader.new) }
{
    let mut bytes = block;
    bytes.resize(length as usize, 0)?;
    let Ok(count) = read_full(reader, bytes.as_mut_slice()) else {
        return Err(ReplayError::Read { file });
    };
    bytes.truncate(count);
    Ok(bytes)
}
