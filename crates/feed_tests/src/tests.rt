//! Texts cut in many places.

ghost use Rattle.std.specs.Prelude.{◌+◌, ◌<◌, ◌≤◌, ◌^◌, length, IfOk};

use crate::read_in_pieces;
use live_model::{Kind, ObjId, Point};
use opl_feed::{Feed, OplBreak, OplError, OplKind};
use opl_reader::Line;
use std::alloc::Global;
use std::test::Fail;

/// A comment, an empty line, and a node with tabs and a carriage return at its line's end.
const TABS: &[u8] = b"# x\n\nn-3 \t\ty2 x1\r\n";

/// A node with characters of two, three and four bytes, one of them as an escape.
const ACCENTS: &str = "n7 Tname=\u{e9}\u{20ac}%1f600%\u{1f600} x1 y1\n";

#[test]
fn a_text_is_read_from_each_two_pieces(rt: HostRuntime) -> Result<(), Fail> {
    let alloc = rt.alloc();
    for cut in 0..=TABS.len() {
        let (first, last) = TABS.split_at(cut);
        let lines = of_two(alloc, first, last)?;
        assert!(rt; is_the_node(&lines), "cut at {cut}");
    }
    for size in 1..=TABS.len() {
        let lines = read_in_pieces(alloc, TABS, size)?;
        assert!(rt; is_the_node(&lines), "pieces of {size}");
    }
    Ok(())
}

#[test]
fn a_character_is_cut_between_pieces(rt: HostRuntime) -> Result<(), Fail> {
    let alloc = rt.alloc();
    for size in 1..=ACCENTS.len() {
        let lines = read_in_pieces(alloc, ACCENTS.as_bytes(), size)?;
        assert!(rt;
            has_value(&lines, "\u{e9}\u{20ac}\u{1f600}\u{1f600}"),
            "pieces of {size}"
        );
    }
    Ok(())
}

#[test]
fn a_number_is_read_to_its_end(rt: HostRuntime) -> Result<(), Fail> {
    let alloc = rt.alloc();
    let mut feed = Feed::new(alloc);
    let mut lines = Vec::new(alloc);
    feed.piece(alloc, b"n1 x1 y1\n", &mut lines)?;
    assert_eq!(rt; lines.len(), 1);
    feed.piece(alloc, b"n2 x", &mut lines)?;
    feed.piece(alloc, b"9", &mut lines)?;
    feed.piece(alloc, b"9", &mut lines)?;
    feed.piece(alloc, b"9", &mut lines)?;
    let broken = Err(OplError::Broken(OplBreak {
        at: 12,
        kind: OplKind::BadNumber,
    }));
    assert!(rt; feed.end(alloc, &mut lines) == broken);
    assert!(rt; feed.end(alloc, &mut lines) == broken);
    assert!(rt; feed.piece(alloc, b"\n", &mut lines) == broken);
    assert_eq!(rt; lines.len(), 1);
    Ok(())
}

#[test]
fn a_feed_is_new_after_its_end(rt: HostRuntime) -> Result<(), Fail> {
    let alloc = rt.alloc();
    let mut feed = Feed::new(alloc);
    let mut lines = Vec::new(alloc);
    feed.piece(alloc, b"n1 x1 y1\nn2 dD", &mut lines)?;
    feed.end(alloc, &mut lines)?;
    assert_eq!(rt; lines.len(), 2);
    feed.piece(alloc, b"n1 x1 y1\nn2 dE\n", &mut lines).is_err();
    let broken = Err(OplError::Broken(OplBreak {
        at: 12,
        kind: OplKind::BadField,
    }));
    assert!(rt; feed.end(alloc, &mut lines) == broken);
    assert_eq!(rt; lines.len(), 2);
    Ok(())
}

#[test]
fn a_carriage_return_ends_a_piece(rt: HostRuntime) -> Result<(), Fail> {
    let alloc = rt.alloc();
    for last in [&b"\n"[..], &b""[..]] {
        let lines = of_two(alloc, b"n-3 y2 x1\r", last)?;
        assert!(rt; is_the_node(&lines));
    }
    let broken = OplError::Broken(OplBreak {
        at: 4,
        kind: OplKind::BadNumber,
    });
    assert!(rt; of_two(alloc, b"n-3 y2\r", b"\r\n").err() == Some(broken));
    assert!(rt; of_two(alloc, b"n-3 y2\r", b" x1\n").err() == Some(broken));
    Ok(())
}

#[test]
fn a_line_is_longer_than_a_piece(rt: HostRuntime) -> Result<(), Fail> {
    let alloc = rt.alloc();
    let mut text = Vec::new(alloc);
    text.extend_from_slice(b"n7 x1 y1 Tname=")?;
    for _ in 0..200_000 {
        text.push(b'a')?;
    }
    text.extend_from_slice(b"\nn8 x1 y1")?;
    let lines = read_in_pieces(alloc, &text, 65_536)?;
    assert_eq!(rt; lines.len(), 2);
    assert!(rt; value_length(&lines) == 200_000);
    Ok(())
}

#[test]
fn the_limit_is_passed_within_a_line(rt: HostRuntime) -> Result<(), Fail> {
    let alloc = rt.alloc();
    let mut feed = Feed::new(alloc);
    let mut lines = Vec::new(alloc);
    let many = four_thousand_lines(alloc)?;
    for turn in 0..1_000_usize {
        feed.piece(alloc, &many, &mut lines)?;
        assert_eq!(rt; lines.len(), 4_000, "in turn {turn}");
        lines.clear();
    }
    feed.piece(alloc, b"# \nn2", &mut lines)?;
    let broken = Err(OplError::Broken(OplBreak {
        at: 24_000_003,
        kind: OplKind::OverLimit,
    }));
    assert!(rt; feed.piece(alloc, b" x1 y1\n", &mut lines) == broken);
    assert!(rt; feed.end(alloc, &mut lines) == broken);
    Ok(())
}

/// Four thousand lines of six bytes.
fn four_thousand_lines(alloc: Global) -> Result<Vec<u8>, Fail>
    ensures { IfOk result (λ text. length text.items ≤ 24000) }
{
    let mut text = Vec::new(alloc);
    for _ in 0..4_000_usize {
        text.extend_from_slice(b"n1 dD\n")?;
    }
    Ok(text)
}

/// The lines of a text that comes in two pieces.
fn of_two(alloc: Global, first: &[u8], last: &[u8]) -> Result<Vec<Line>, OplError>
    requires { length first.now + length last.now < 2 ^ 63 }
{
    let mut feed = Feed::new(alloc);
    let mut lines = Vec::new(alloc);
    feed.piece(alloc, first, &mut lines)?;
    feed.piece(alloc, last, &mut lines)?;
    feed.end(alloc, &mut lines)?;
    Ok(lines)
}

/// Whether the lines are the one of node -3 at 1 degree east and 2 degrees north.
fn is_the_node(lines: &[Line]) -> bool {
    match lines {
        [Line::Live(e)] => {
            ObjId::new(Kind::Node, -3) == Some(e.id)
                && Point::from_degrees(10_000_000, 20_000_000) == e.place
                && e.version == 0
                && e.tags.is_empty()
        }
        _ => false,
    }
}

/// Whether the lines are one, of an object with one tag of this value.
fn has_value(lines: &[Line], value: &str) -> bool {
    match lines {
        [Line::Live(e)] => match e.tags.as_slice() {
            [tag] => tag.value.as_str() == value,
            _ => false,
        },
        _ => false,
    }
}

/// The length of the value of the one tag of the first object, or 0.
fn value_length(lines: &[Line]) -> usize {
    match lines {
        [Line::Live(e), ..] => match e.tags.as_slice() {
            [tag] => tag.value.as_str().len(),
            _ => 0,
        },
        _ => 0,
    }
}
