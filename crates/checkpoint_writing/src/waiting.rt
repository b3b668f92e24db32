//! Records on their way to a writer.

ghost use Rattle.std.specs.Prelude.{◌≡◌, ◌+◌, ◌^◌, ◌<◌, ◌++◌, [], length, OnOk};
ghost use Rattle.std.specs.Io.KnownBytes.{Appends};
ghost use Rattle.mrt_writing.specs.Records.{record_bytes};
ghost use Rattle.mrt_writing.specs.Dumps.{of_kind};
ghost use Rattle.checkpoint_writing.specs.Dumping.{Grows};

use bgp_update::Unicast;
use mrt_frame::{Failed, ReplayError, Sink, write_full};
use mrt_writing::{RecordKind, push_record_head};

/// From how many bytes on what waits is written.
const WAITING_BYTES: usize = 65_536;

/// Writes what waits.
pub(crate) fn send<W: Sink>(out: &mut W, waiting: &mut Vec<u8>) -> Result<(), ReplayError>
    ensures sent { OnOk result (Appends (W.contents out.old) (W.contents out.new) waiting.old.items) }
    ensures empty { OnOk result (waiting.new.items ≡ []) }
{
    match write_full(out, waiting.as_slice()) {
        Ok(()) => {
            waiting.clear();
            Ok(())
        }
        Err(Failed) => Err(ReplayError::Write),
    }
}

/// Writes what waits, if it is long.
fn send_long<W: Sink>(out: &mut W, waiting: &mut Vec<u8>) -> Result<(), ReplayError>
    ensures { OnOk result (Grows (W.contents out.old) waiting.old.items (W.contents out.new) waiting.new.items []) }
{
    if waiting.len() < WAITING_BYTES {
        return Ok(());
    }
    send(out, waiting)
}

/// Adds a record to what waits. Its body is given in two pieces. A length that four bytes don't hold is no less than
/// what memory is short of.
pub(crate) fn put_record<F: Unicast, W: Sink>(
    out: &mut W,
    waiting: &mut Vec<u8>,
    seconds: u32,
    kind: RecordKind,
    front: &[u8],
    back: &[u8],
) -> Result<(), ReplayError>
    ensures { OnOk result (Grows (W.contents out.old) waiting.old.items (W.contents out.new) waiting.new.items
        (record_bytes (of_kind F.family seconds kind (front.now ++ back.now)))) }
{
    let Ok(len) = u32::try_from(front.len() + back.len()) else {
        return Err(ReplayError::Memory);
    };
    push_record_head::<F>(waiting, seconds, kind, len)?;
    waiting.extend_from_slice(front)?;
    waiting.extend_from_slice(back)?;
    send_long(out, waiting)?;
    Ok(())
}
