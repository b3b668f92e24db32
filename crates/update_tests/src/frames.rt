//! Records cut from a reader.

use fixtures::{Dripping, body_of, bytes_of};
use mrt_frame::*;
use std::io::ErrorKind;
use std::test::Fail;

/// Reads of one byte cut the same record. A failing read is told, and told again without another.
#[test]
fn short_reads_cut_the_same_record_and_a_failed_one_is_told_again(
    rt: HostRuntime,
) -> Result<(), Fail> {
    let alloc = rt.alloc();
    let body = body_of(alloc, "announcement")?;
    let bytes = bytes_of(alloc, "announcement 00000001 0010")?;
    let device = Dripping::new(bytes.as_slice(), Some(ErrorKind::Interrupted));
    let mut reader = Counted::new(device);
    let mut frames = FrameReader::new(3);
    match frames.next(alloc, &mut reader) {
        Ok(Some(Cut::Whole(record))) => {
            assert!(rt; record.offset == 0 && record.seconds == 1);
            assert!(rt; record.kind == 16 && record.subtype == 4);
            assert!(rt; record.body.as_slice() == body.as_slice());
        }
        _ => assert!(rt; false, "no record"),
    }
    for _ in 0..2u8 {
        let error = frames.next(alloc, &mut reader).err();
        assert!(rt; error == Some(ReplayError::Read { file: 3 }));
        // The record's 77 bytes, the six behind it, and the read that failed.
        assert!(rt; reader.failures() == 1 && reader.device().asked == 84);
    }
    Ok(())
}

/// The bytes behind a header whose body is too long stay unread.
#[test]
fn a_body_that_is_too_long_stays_unread(rt: HostRuntime) -> Result<(), Fail> {
    let alloc = rt.alloc();
    let bytes = bytes_of(alloc, "header-of-too-long-body 0102030405")?;
    let mut reader = Counted::new(bytes.as_slice());
    let mut frames = FrameReader::new(0);
    match frames.next(alloc, &mut reader) {
        Ok(Some(Cut::Broken { offset, fault })) => {
            assert!(rt; offset == 0 && fault == Fault::BodyTooLong);
        }
        _ => assert!(rt; false, "no broken cut"),
    }
    assert!(rt; matches!(frames.next(alloc, &mut reader), Ok(None)));
    assert!(rt; reader.device().len() == 5);
    Ok(())
}
