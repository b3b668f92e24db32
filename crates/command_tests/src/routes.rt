//! Which routes words choose, which attributes they need, and which words are refused.

use bgp_update::{AttributeSet, KeptAttribute};
use command_line::{Asked, Usage, read_origin, read_words};
use route_choice::ChosenRoutes;
use std::alloc::Global;
use std::test::Fail;

/// The choice and the attributes of a job, as text.
fn shown(alloc: Global, routes: &ChosenRoutes, attributes: AttributeSet) -> Result<String, Fail> {
    let mut text = format!(in alloc; "{routes:?}")?;
    for (attribute, name) in [
        (KeptAttribute::Communities, " communities"),
        (KeptAttribute::ExtendedCommunities, " extended"),
        (KeptAttribute::LargeCommunities, " large"),
        (KeptAttribute::OriginatorId, " originator"),
        (KeptAttribute::ClusterList, " clusters"),
        (KeptAttribute::OnlyToCustomer, " otc"),
    ] {
        if attributes.has(attribute) {
            text.push_str(name)?;
        }
    }
    Ok(text)
}

/// What these words and a file ask for, or the first line of their refusal.
fn asked_by(alloc: Global, given: &[&str]) -> Result<String, Fail> {
    let mut words = Vec::new(alloc);
    for word in given {
        words.push(String::from_str(alloc, word)?)?;
    }
    words.push(String::from_str(alloc, "rib.mrt")?)?;
    match read_words(alloc, words.as_slice()) {
        Ok(Asked::Ipv4(job)) => shown(alloc, &job.routes, job.layout.attributes),
        Ok(Asked::Ipv6(job)) => shown(alloc, &job.routes, job.layout.attributes),
        Err(Usage::Words(text)) => {
            let line = text.as_str().split('\n').next().unwrap_or("");
            Ok(String::from_str(alloc, line)?)
        }
        Err(_) => Ok(String::from_str(alloc, "no job")?),
    }
}

/// A number below 2^32 without a sign or a leading zero, or `-`.
#[test]
fn origins_are_read(rt: HostRuntime) {
    for (text, origin) in [
        ("-", None),
        ("0", Some(0u32)),
        ("65001", Some(65_001)),
        ("4294967295", Some(u32::MAX)),
    ] {
        assert!(rt; read_origin(text) == Some(origin), "{text}");
    }
    for text in [
        "",
        " ",
        "x",
        "--",
        "-1",
        "+1",
        "01",
        "1 ",
        " 1",
        "1,2",
        "1..2",
        "*",
        "AS1",
        "4294967296",
    ] {
        assert!(rt; read_origin(text).is_none(), "{text}");
    }
}

/// Each value adds to those of its kind, and a pattern asks for its attribute as a name of `--attributes` does.
#[test]
fn words_choose_routes(rt: HostRuntime) -> Result<(), Fail> {
    let all = "ChosenRoutes { origins: [], paths: [], communities: [] }";
    let rows: [(&[&str], &str); 11] = [
        (&["tables"], all),
        (&["churn"], all),
        (
            &["churn", "--path", "*"],
            "ChosenRoutes { origins: [], paths: [PathMask { steps: [AnyNumber] }], communities: [] }",
        ),
        (
            &["history", "--origin", "-"],
            "ChosenRoutes { origins: [None], paths: [], communities: [] }",
        ),
        (
            &["tables", "--origin", "65001", "--origin", "-", "--origin=0"],
            "ChosenRoutes { origins: [Some(65001), None, Some(0)], paths: [], communities: [] }",
        ),
        (
            &["match", "--address", "10.0.0.1", "--origin", "4294967295"],
            "ChosenRoutes { origins: [Some(4294967295)], paths: [], communities: [] }",
        ),
        (
            &["visibility", "--path", "* 64496", "--path", "[= =]"],
            "ChosenRoutes { origins: [], paths: [PathMask { steps: [AnyNumber, Within(64496, 64496)] }, PathMask { steps: [] }], communities: [] }",
        ),
        (
            &["origins", "--path=[=1..2 ? *\t=]", "--family", "ipv6"],
            "ChosenRoutes { origins: [], paths: [PathMask { steps: [Within(1, 2), AnyOne, AnyNumber] }], communities: [] }",
        ),
        (
            &["seen", "--community", "65000:*", "--community", "1:2:3"],
            "ChosenRoutes { origins: [], paths: [], communities: [Standard(Number(65000), AnyValue), Large(Number(1), Number(2), Number(3))] } communities large",
        ),
        (
            &["peers", "--community", "rt:65000:1", "--attributes", "otc"],
            "ChosenRoutes { origins: [], paths: [], communities: [Extended(RouteTarget, Asn(65000), Number(1))] } extended otc",
        ),
        (
            &[
                "tables",
                "--community",
                "0x0000000000000001",
                "--attributes",
                "extended,large",
                "--origin",
                "7",
                "--path",
                "7",
            ],
            "ChosenRoutes { origins: [Some(7)], paths: [PathMask { steps: [Within(7, 7)] }], communities: [Exactly(1)] } extended large",
        ),
    ];
    for (words, expected) in rows {
        let asked = asked_by(rt.alloc(), words)?;
        assert!(rt; asked.as_str() == expected, "{asked}");
    }
    Ok(())
}

/// The first bad value is told, and a report that doesn't choose routes has none of the options.
#[test]
fn bad_choices_are_refused(rt: HostRuntime) -> Result<(), Fail> {
    let rows: [(&[&str], &str); 13] = [
        (
            &["tables", "--origin", "1", "--origin", "x"],
            "error: invalid value 'x' for '--origin <AS>': neither an AS number nor -",
        ),
        (
            &["tables", "--origin", "4294967296"],
            "error: invalid value '4294967296' for '--origin <AS>': neither an AS number nor -",
        ),
        (
            &["tables", "--path", "*", "--path", ""],
            "error: invalid value '' for '--path <MASK>': it has no word",
        ),
        (
            &["tables", "--path", " \t"],
            "error: invalid value ' \t' for '--path <MASK>': it has no word",
        ),
        (
            &["tables", "--path", "[= 1"],
            "error: invalid value '[= 1' for '--path <MASK>': one of the brackets [= and =] stands without the other",
        ),
        (
            &["tables", "--path", "1 =]"],
            "error: invalid value '1 =]' for '--path <MASK>': one of the brackets [= and =] stands without the other",
        ),
        (
            &["tables", "--path", "* 2..1"],
            "error: invalid value '* 2..1' for '--path <MASK>': a word is neither a number below 2^32, nor A..B with such numbers and A not above B, nor ? or *",
        ),
        (
            &["tables", "--path", "4294967296"],
            "error: invalid value '4294967296' for '--path <MASK>': a word is neither a number below 2^32, nor A..B with such numbers and A not above B, nor ? or *",
        ),
        (
            &["tables", "--community", "1:2", "--community", "1"],
            "error: invalid value '1' for '--community <C>': neither a community, nor a large nor an extended one",
        ),
        (
            &["tables", "--community", "65536:1"],
            "error: invalid value '65536:1' for '--community <C>': neither a community, nor a large nor an extended one",
        ),
        (
            &["faults", "--origin", "1"],
            "error: unexpected argument '--origin' found",
        ),
        (
            &["faults", "--path", "*"],
            "error: unexpected argument '--path' found",
        ),
        (
            &["faults", "--community", "1:2"],
            "error: unexpected argument '--community' found",
        ),
    ];
    for (words, expected) in rows {
        let asked = asked_by(rt.alloc(), words)?;
        assert!(rt; asked.as_str() == expected, "{asked}");
    }
    Ok(())
}
