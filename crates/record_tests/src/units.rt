//! Answers of `Units` that are no rows of dumps.

use fixtures::{Dripping, THREE_PEERS, Zeros, bytes_of};
use mrt_body::{Lent, Units};
use mrt_frame::{Counted, Failures, ReplayError, Source};
use peer_units::{Found, Payload, RibRule, Selection, TableDumpRule};
use std::alloc::Global;
use std::io::ErrorKind;
use std::process::Abort;
use std::test::Fail;

/// The letter of an answer. `F` is a failed read of the second file.
fn letter_of(answer: &Result<Option<Found>, ReplayError>) -> char {
    match answer {
        Ok(None) => '.',
        Ok(Some(Found::Refused(_))) => 'r',
        Ok(Some(Found::Unit(unit))) => match &unit.payload {
            Payload::Clear => 'c',
            _ => 'u',
        },
        Err(ReplayError::Read { file: 1 }) => 'F',
        Err(ReplayError::Records) => 'L',
        Err(ReplayError::Memory) => 'M',
        Err(ReplayError::Spent) => 'S',
        Err(_) => '?',
    }
}

/// The letter of the next answer.
fn next_letter<R: Source>(
    rt: &impl Abort,
    alloc: Global,
    units: &mut Units,
    files: &mut [R],
) -> char {
    assert!(rt; units.count() == files.len());
    letter_of(&units.next(alloc, files))
}

/// Expects answers of these letters.
fn expect_answers<R: Source>(
    rt: &impl Abort,
    alloc: Global,
    units: &mut Units,
    files: &mut [R],
    letters: &str,
) {
    for expected in letters.chars() {
        assert!(rt;
            next_letter(rt, alloc, units, files) == expected,
            "{letters}"
        );
    }
}

/// The units of so many files, up to this number of records. RIB dumps replace what came before them, and TABLE_DUMP
/// records are read.
fn units_of(rt: &impl Abort, alloc: Global, files: usize, most: u64) -> Units {
    assert!(rt; 0 < most && most <= 1000);
    Units::new(
        alloc,
        files,
        most,
        Selection::all(alloc)
            .by_ribs(RibRule::Replace)
            .by_table_dumps(TableDumpRule::Read),
    )
}

/// The rest of a file is no record, in the first file or in the second.
#[test]
fn past_the_limit_on_records_the_units_are_spent(rt: HostRuntime) -> Result<(), Fail> {
    let rest = bytes_of(rt.alloc(), "00000001 000C 0001")?;
    for (words, most, answers) in [
        ("announcement announcement", 1u64, "uLSS"),
        ("announcement announcement", 2, "uur.."),
        ("announcement 000000", 1, "urr.."),
        (
            "announcement peer-index-table rib-record announcement",
            3,
            "ucuuLSS",
        ),
    ] {
        let bytes = bytes_of(rt.alloc(), words)?;
        let mut files = [
            Counted::new(bytes.as_slice()),
            Counted::new(rest.as_slice()),
        ];
        let mut units = units_of(&rt, rt.alloc(), 2, most);
        expect_answers(&rt, rt.alloc(), &mut units, &mut files, answers);
        assert!(rt; units.records() == most && units.aside() == 0);
    }
    Ok(())
}

#[test]
fn endless_zeros_end_at_the_limit_on_records(rt: HostRuntime) {
    let mut units = units_of(&rt, rt.alloc(), 1, 5);
    expect_answers(
        &rt,
        rt.alloc(),
        &mut units,
        &mut [Counted::new(Zeros)],
        "LSS",
    );
    assert!(rt; units.records() == 5 && units.aside() == 5);
}

/// Expects of two files, of which the second fails in place of its end, the whole records before that, then the failed
/// read, and then the same again with nothing read. Reads give a byte each.
fn expect_failed_read(rt: &impl Abort, alloc: Global, first: &[u8], second: &[u8]) {
    let whole = second.len() / 77;
    let mut files = [
        Counted::new(Dripping::new(first, None)),
        Counted::new(Dripping::new(second, Some(ErrorKind::Interrupted))),
    ];
    let mut units = units_of(rt, alloc, 2, 1000);
    for _ in 0..=whole {
        expect_answers(rt, alloc, &mut units, &mut files, "u");
    }
    assert!(rt; files[1].failures() == 0);
    expect_answers(rt, alloc, &mut units, &mut files, "F");
    let asked = files[1].device().asked;
    expect_answers(rt, alloc, &mut units, &mut files, "FF");
    assert!(rt; files[1].device().asked == asked && files[1].failures() == 1);
    assert!(rt; files[0].failures() == 0);
    assert!(rt; units.records() as usize == whole.wrapping_add(1));
}

/// A read fails in place of each byte of the second file.
#[test]
fn a_failed_read_comes_behind_the_whole_records(rt: HostRuntime) -> Result<(), Fail> {
    let bytes = bytes_of(rt.alloc(), THREE_PEERS)?;
    let first = bytes_of(rt.alloc(), "announcement")?;
    assert!(rt; bytes.len() == 5 * 77 && first.len() == 77);
    for k in 0..=bytes.len() {
        expect_failed_read(&rt, rt.alloc(), first.as_slice(), &bytes.as_slice()[..k]);
    }
    Ok(())
}

/// One growth may be refused: each answer is that with ample memory, or wants memory, and then the units are spent.
#[test]
fn a_refused_growth_spends_the_units(rt: HostRuntime) -> Result<(), Fail> {
    let records =
        "announcement peer-index-table rib-record table-dump-entry table-dump peer-index-table rib-record";
    let bytes = bytes_of(rt.alloc(), records)?;
    let mut files = [Counted::new(bytes.as_slice())];
    let mut units = units_of(&rt, rt.alloc(), 1, 1000);
    for expected in "ucuuurcccuu..".chars() {
        match next_letter(&rt, rt.alloc(), &mut units, &mut files) {
            'M' => {
                expect_answers(&rt, rt.alloc(), &mut units, &mut files, "SS");
                return Ok(());
            }
            letter => assert!(rt; letter == expected),
        }
    }
    Ok(())
}

/// How many units are lent.
fn lent(units: &Units) -> usize {
    match units.lend() {
        Lent::None => 0,
        Lent::Unit(_) => 1,
        Lent::Entries(mut entries) => {
            for number in 0..1000 {
                if entries.next().is_none() {
                    return number;
                }
            }
            1000
        }
    }
}

/// Reads on to a unit. Nothing is refused.
fn read_on<R: Source>(rt: &impl Abort, alloc: Global, units: &mut Units, files: &mut [R]) {
    assert!(rt; units.count() == files.len());
    assert!(rt; matches!(units.advance(alloc, files), Ok(None)));
}

/// Nothing is read while a unit is lent.
#[test]
fn units_are_lent_until_they_are_left_behind(rt: HostRuntime) -> Result<(), Fail> {
    let bytes = bytes_of(rt.alloc(), "peer-index-table rib-record announcement")?;
    // (how many are left behind at once, how many are lent then)
    for (count, left) in [(0usize, 2usize), (1, 1), (2, 0), (3, 0), (usize::MAX, 0)] {
        let mut files = [Counted::new(bytes.as_slice())];
        let mut units = units_of(&rt, rt.alloc(), 1, 1000);
        assert!(rt; lent(&units) == 0);
        for _ in 0..2u8 {
            read_on(&rt, rt.alloc(), &mut units, &mut files);
            assert!(rt; lent(&units) == 2 && units.records() == 2);
        }
        units.consume(count);
        assert!(rt; lent(&units) == left);
        read_on(&rt, rt.alloc(), &mut units, &mut files);
        // Behind the last entry comes the message.
        assert!(rt; lent(&units) == left.max(1));
        assert!(rt; units.records() == if left == 0 { 3 } else { 2 });
    }
    Ok(())
}
