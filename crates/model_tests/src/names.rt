//! Keys of names, by what Unicode's tables say of their characters.

use name_fold::{is_prefix, key};
use std::test::Fail;

#[test]
fn keys(rt: HostRuntime) -> Result<(), Fail> {
    let rows = [
        ("", ""),
        ("STRASSE", "strasse"),
        ("Straße", "strasse"),
        ("STRA\u{1e9e}E", "strasse"),
        ("\u{fc}", "u\u{308}"),
        ("u\u{308}", "u\u{308}"),
        ("\u{ac00}", "\u{1100}\u{1161}"),
        ("\u{130}", "i\u{307}"),
        ("ΟΔΟΣ", "οδοσ"),
        ("οδος", "οδοσ"),
        ("A\u{345}\u{301}", "a\u{301}ι"),
    ];
    for (name, expected) in rows {
        assert_eq!(rt; key(rt.alloc(), name)?.as_str(), expected);
    }
    assert_eq!(rt;
        (is_prefix("u", "u\u{308}"), is_prefix("ub", "u")),
        (true, false)
    );
    Ok(())
}

#[test]
fn a_long_name(rt: HostRuntime) -> Result<(), Fail> {
    let name = "\u{dc}".repeat(rt.alloc(), 100_000)?;
    assert_eq!(rt; key(rt.alloc(), name.as_str())?.len(), 300_000);
    Ok(())
}
