//! What words ask for and no report depends on, and lines that no help has.

use command_line::{Asked, read_words, wrapped};
use std::alloc::Global;
use std::test::Fail;

/// The size of rings and the number of workers that the words, split at blanks, ask for, and whether they give the
/// number.
fn plan_of(alloc: Global, text: &str) -> Result<Option<(usize, usize, bool)>, Fail> {
    let mut words = Vec::new(alloc);
    for word in text.split(' ') {
        words.push(String::from_str(alloc, word)?)?;
    }
    let asked = read_words(alloc, words.as_slice());
    Ok(match &asked {
        Ok(Asked::Ipv4(job)) => Some((job.ring, job.workers, job.has_workers)),
        Ok(Asked::Ipv6(job)) => Some((job.ring, job.workers, job.has_workers)),
        Err(_) => None,
    })
}

/// The last number counts.
#[test]
fn words_ask_for_rings_and_workers(rt: HostRuntime) -> Result<(), Fail> {
    for (text, ring, workers, has_workers) in [
        ("tables x", 1024, 4, false),
        ("history --ring 65536 x", 65_536, 4, false),
        ("tables --workers 64 x", 1024, 64, true),
        ("churn --family ipv6 --workers 3 --ring 8 x", 8, 3, true),
        (
            "tables --workers 2 x --ring 8 --workers 3 --ring 1 y",
            1,
            3,
            true,
        ),
    ] {
        let plan = plan_of(rt.alloc(), text)?;
        assert!(rt; plan == Some((ring, workers, has_workers)), "{text}");
    }
    Ok(())
}

/// What follows a break is indented as the line's second column, and 40 columns are the least. A line of one column is
/// broken to its first word, and a word never.
#[test]
fn lines_are_broken_to_a_width(rt: HostRuntime) -> Result<(), Fail> {
    let columns = "  name  one two three four five six seven eight";
    let broken = "  name  one two three four five six\n        seven eight";
    for (width, text, expected) in [
        (40, "", ""),
        (40, "\n", "\n"),
        (40, "a line\nand another\n", "a line\nand another\n"),
        (40, columns, broken),
        (1, columns, broken),
        (80, columns, columns),
        (
            40,
            "   one two three four five six seven eight nine",
            "   one two three four five six seven\n   eight nine",
        ),
        (
            40,
            "12345678901234567890123456789012345678901234567890 a",
            "12345678901234567890123456789012345678901234567890\na",
        ),
    ] {
        let lines = wrapped(rt.alloc(), text, width)?;
        assert!(rt; lines.as_str() == expected, "{text} in {width} columns");
    }
    Ok(())
}
