//! What texts of masks and patterns are read to, and which are refused.

use route_choice::{
    Administrator, CommunityPattern, MaskError, PathStep, PatternPart, Role, read_community,
    read_mask,
};
use std::alloc::Global;
use std::test::Fail;

/// The steps of a text, each with a blank behind it, or why there are none.
fn steps_of(alloc: Global, text: &str) -> Result<String, Fail> {
    let mask = match read_mask(alloc, text) {
        Ok(mask) => mask,
        Err(MaskError::Empty) => return Ok(String::from_str(alloc, "empty")?),
        Err(MaskError::Bracket) => return Ok(String::from_str(alloc, "bracket")?),
        Err(MaskError::Word) => return Ok(String::from_str(alloc, "word")?),
        Err(MaskError::Memory) => return Ok(String::from_str(alloc, "memory")?),
    };
    let mut shown = String::new(alloc);
    for step in mask.steps() {
        match step {
            PathStep::Within(first, last) => {
                let range = format!(in alloc; "{first}-{last} ")?;
                shown.push_str(range.as_str())?;
            }
            PathStep::AnyOne => shown.push_str("? ")?,
            PathStep::AnyNumber => shown.push_str("* ")?,
        }
    }
    Ok(shown)
}

/// Words stand between spaces and tabs, with both brackets round them or none.
#[test]
fn masks_are_read(rt: HostRuntime) -> Result<(), Fail> {
    for (text, expected) in [
        ("* 64496", "* 64496-64496 "),
        ("64496 *", "64496-64496 * "),
        (" \t174\t 3356  ", "174-174 3356-3356 "),
        ("? 64496..64511 *", "? 64496-64511 * "),
        ("7..7", "7-7 "),
        ("0 4294967295", "0-0 4294967295-4294967295 "),
        ("[= * 174 * =]", "* 174-174 * "),
        ("[=1 * =]", "1-1 * "),
        ("[=1=]", "1-1 "),
        (" [= =] ", ""),
        ("[==]", ""),
        ("", "empty"),
        (" \t ", "empty"),
        ("[=", "bracket"),
        ("=]", "bracket"),
        ("[=]", "bracket"),
        ("[= 1", "bracket"),
        ("1 =]", "bracket"),
        ("1 =] 2", "word"),
        ("[= [= 1 =] =]", "word"),
        ("2..1", "word"),
        ("1..", "word"),
        ("..1", "word"),
        ("1...2", "word"),
        ("1..2..3", "word"),
        ("4294967296", "word"),
        ("1..4294967296", "word"),
        ("-1", "word"),
        ("+1", "word"),
        ("01", "word"),
        ("**", "word"),
        ("1,2", "word"),
        ("AS1", "word"),
    ] {
        let steps = steps_of(rt.alloc(), text)?;
        assert!(rt; steps.as_str() == expected, "{text}");
    }
    Ok(())
}

/// Each part is `*` or a number that fits.
#[test]
fn patterns_are_read(rt: HostRuntime) -> Result<(), Fail> {
    let any = PatternPart::AnyValue;
    let target = Role::RouteTarget;
    for (text, expected) in [
        (
            "65000:666",
            CommunityPattern::Standard(PatternPart::Number(65_000), PatternPart::Number(666)),
        ),
        (
            "*:65535",
            CommunityPattern::Standard(any, PatternPart::Number(65_535)),
        ),
        ("*:*", CommunityPattern::Standard(any, any)),
        (
            "4294967295:*:0",
            CommunityPattern::Large(
                PatternPart::Number(4_294_967_295),
                any,
                PatternPart::Number(0),
            ),
        ),
        (
            "rt:65000:4294967295",
            CommunityPattern::Extended(
                target,
                Administrator::Asn(65_000),
                PatternPart::Number(4_294_967_295),
            ),
        ),
        (
            "rt:70000:65535",
            CommunityPattern::Extended(
                target,
                Administrator::Asn(70_000),
                PatternPart::Number(65_535),
            ),
        ),
        (
            "ro:192.0.2.1:*",
            CommunityPattern::Extended(Role::RouteOrigin, Administrator::Address(0xc000_0201), any),
        ),
        (
            "rt:*:70000",
            CommunityPattern::Extended(
                target,
                Administrator::AnyAdministrator,
                PatternPart::Number(70_000),
            ),
        ),
        (
            "0x0002fde800000001",
            CommunityPattern::Exactly(0x0002_fde8_0000_0001),
        ),
    ] {
        assert!(rt; read_community(text) == Some(expected), "{text}");
    }
    Ok(())
}

/// Any other text is refused.
#[test]
fn other_texts_are_no_patterns(rt: HostRuntime) -> Result<(), Fail> {
    for text in [
        "",
        "1",
        ":",
        "1:",
        "65536:1",
        "1:65536",
        "1:2:4294967296",
        "1:2:3:4",
        "01:1",
        "-1:1",
        "1:+1",
        "1: 2",
        "rt:1",
        "rt::1",
        "rt:1:2:3",
        "rt:70000:65536",
        "rt:192.0.2.1:65536",
        "rt:192.0.2:1",
        "rx:1:2",
        "RT:1:2",
        "0x0002FDE800000001",
        "0x0002fde80000001",
        "0x0002fde8000000010",
        "0002fde800000001",
        "0x+002fde800000001",
    ] {
        assert!(rt; read_community(text).is_none(), "{text}");
    }
    Ok(())
}
