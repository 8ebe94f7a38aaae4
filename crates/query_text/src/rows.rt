//! Rows of an answer, a line each.
//!
//! Where memory is refused a part of a piece may stand after what the buffer had; a public call takes it back.

ghost use Rattle.std.specs.Prelude.{◌≡◌, ◌++◌, ◌∷◌, [], length, take, OnOk, OnErr};
ghost use Rattle.std.specs.List.{flat_map};
ghost use Rattle.live_model.specs.declared.rows.Row.TheVariants.{Map, Poi, Addr, Seg, Ban};
ghost use Rattle.live_model.specs.CanonicalLines.{id_text, listed};
ghost use Rattle.live_model.specs.Closures.{node_id, way_id};
ghost use Rattle.live_model.specs.RowTexts.{address_text, direction_text, language_pieces, named_text, point_text, printed_row, spaced, value_text};
ghost use Rattle.live_model.specs.Rules.{shape_text};
ghost use Rattle.std.specs.Fmt.{decimal as printed, signed_decimal};
ghost use Rattle.query_text.specs.Lines.{row_line, segment_nodes, turn_text};

use live_model::{
    AddrKind, AddrRec, BanRec, Dir, Kind, MapRec, ObjId, PoiRec, Point, Row, SegRow, Shape,
};
use owned_data::{Mem, Text};
use text_pieces::{put_bytes, put_degrees, put_escaped, put_number, put_signed};

/// Puts the line of a row, with its line feed, at the end of a buffer. Where memory is refused the buffer is as it was.
pub fn put_row(out: &mut Vec<u8>, row: &Row) -> Mem<()>
    ensures ok { OnOk result (out.new.items ≡ out.old.items ++ row_line row.now) }
    ensures err { OnErr result (out.new.items ≡ out.old.items) }
{
    let before = out.len();
    let done = begin_line(out, row);
    if done.is_err() {
        out.truncate(before);
    }
    done
}

/// Puts the line of a row, with its line feed.
#[tactic(auto, using(text_pieces::proofs::Fronts::front_of_longer))]
fn begin_line(out: &mut Vec<u8>, row: &Row) -> Mem<()>
    ensures ok { OnOk result (out.new.items ≡ out.old.items ++ row_line row.now) }
    ensures err { OnErr result (take (length out.old.items) out.new.items ≡ out.old.items) }
{
    match row {
        Row::Map(item) => begin_map(out, item)?,
        Row::Poi(item) => begin_poi(out, item)?,
        Row::Addr(item) => begin_address(out, item)?,
        Row::Seg(item) => begin_segment(out, item)?,
        Row::Ban(item) => begin_restriction(out, item)?,
    }
    put_bytes(out, b"\n")
}

/// Puts a map record.
#[tactic(auto, unfolding(live_model::specs::RowTexts::printed_row), using(text_pieces::proofs::Fronts::front_of_longer))]
fn begin_map(out: &mut Vec<u8>, item: &MapRec) -> Mem<()>
    ensures ok { OnOk result (out.new.items ≡ out.old.items ++ printed_row (Map item.now)) }
    ensures err { OnErr result (take (length out.old.items) out.new.items ≡ out.old.items) }
{
    begin_row(out, b"M", &item.id)?;
    begin_drawing(out, item.rule, item.shape)?;
    begin_value(out, &item.name)?;
    put_bytes(out, b" ")?;
    begin_points(out, item.points.as_slice())
}

/// Puts the index of a rule and a shape, each after a space.
#[tactic(auto, using(text_pieces::proofs::Fronts::front_of_longer))]
fn begin_drawing(out: &mut Vec<u8>, rule: u32, shape: Shape) -> Mem<()>
    ensures ok { OnOk result (out.new.items ≡ out.old.items ++ (32 ∷ printed rule ++ 32 ∷ shape_text shape)) }
    ensures err { OnErr result (take (length out.old.items) out.new.items ≡ out.old.items) }
{
    put_bytes(out, b" ")?;
    put_number(out, u64::from(rule))?;
    put_bytes(out, b" ")?;
    put_bytes(out, shape_word(shape).as_bytes())
}

/// Puts a point of interest.
#[tactic(auto, unfolding(live_model::specs::RowTexts::printed_row), using(text_pieces::proofs::Fronts::front_of_longer))]
fn begin_poi(out: &mut Vec<u8>, item: &PoiRec) -> Mem<()>
    ensures ok { OnOk result (out.new.items ≡ out.old.items ++ printed_row (Poi item.now)) }
    ensures err { OnErr result (take (length out.old.items) out.new.items ≡ out.old.items) }
{
    begin_row(out, b"P", &item.id)?;
    put_bytes(out, b" ")?;
    put_bytes(out, item.category.as_bytes())?;
    begin_located(out, &item.point, &item.name)
}

/// Puts a place, a street or a house.
#[tactic(auto, unfolding(live_model::specs::RowTexts::printed_row), using(text_pieces::proofs::Fronts::front_of_longer))]
fn begin_address(out: &mut Vec<u8>, item: &AddrRec) -> Mem<()>
    ensures ok { OnOk result (out.new.items ≡ out.old.items ++ printed_row (Addr item.now)) }
    ensures err { OnErr result (take (length out.old.items) out.new.items ≡ out.old.items) }
{
    match item.kind {
        AddrKind::Place => begin_named(out, b"place", item),
        AddrKind::Street => begin_named(out, b"street", item),
        AddrKind::House => begin_house(out, item),
    }
}

/// Puts a place or a street, named in a word, and its language last, where it has one.
#[tactic(auto, using(text_pieces::proofs::Fronts::front_of_longer))]
fn begin_named(out: &mut Vec<u8>, word: &[u8], item: &AddrRec) -> Mem<()>
    ensures ok { OnOk result (out.new.items ≡ out.old.items ++ named_text word.now item.now) }
    ensures err { OnErr result (take (length out.old.items) out.new.items ≡ out.old.items) }
{
    begin_row(out, b"A", &item.id)?;
    put_bytes(out, b" ")?;
    put_bytes(out, word)?;
    begin_located(out, &item.point, &item.name)?;
    begin_language(out, &item.lang)
}

/// Puts a language after a space, where there is one.
fn begin_language(out: &mut Vec<u8>, lang: &Text) -> Mem<()>
    ensures ok { OnOk result (out.new.items ≡ out.old.items ++ spaced (language_pieces lang.now)) }
    ensures err { OnErr result (take (length out.old.items) out.new.items ≡ out.old.items) }
{
    if lang.is_empty() {
        return Ok(());
    }
    put_bytes(out, b" ")?;
    put_bytes(out, lang.as_bytes())
}

/// Puts a house with its number and its street.
#[tactic(auto, using(text_pieces::proofs::Fronts::front_of_longer))]
fn begin_house(out: &mut Vec<u8>, item: &AddrRec) -> Mem<()>
    ensures ok { OnOk result (out.new.items ≡ out.old.items ++ address_text AddrKind.House item.now) }
    ensures err { OnErr result (take (length out.old.items) out.new.items ≡ out.old.items) }
{
    begin_row(out, b"H", &item.id)?;
    begin_located(out, &item.point, &item.number)?;
    begin_value(out, &item.name)
}

/// Puts a segment of a road.
#[tactic(auto, unfolding(live_model::specs::RowTexts::printed_row), using(text_pieces::proofs::Fronts::front_of_longer))]
fn begin_segment(out: &mut Vec<u8>, item: &SegRow) -> Mem<()>
    ensures ok { OnOk result (out.new.items ≡ out.old.items ++ printed_row (Seg item.now)) }
    ensures err { OnErr result (take (length out.old.items) out.new.items ≡ out.old.items) }
{
    begin_row(out, b"R", &item.id)?;
    begin_nodes(out, item)?;
    begin_course(out, item.dir, &item.a.point)?;
    begin_located(out, &item.b.point, &item.value)
}

/// Puts a direction and a point, each after a space.
fn begin_course(out: &mut Vec<u8>, direction: Dir, point: &Point) -> Mem<()>
    ensures ok { OnOk result (out.new.items ≡ out.old.items ++ (32 ∷ direction_text direction ++ 32 ∷ point_text point.now)) }
    ensures err { OnErr result (take (length out.old.items) out.new.items ≡ out.old.items) }
{
    put_bytes(out, direction_word(direction))?;
    begin_point(out, point)
}

/// Puts the index of a segment and its nodes, each after a space.
#[tactic(auto, using(text_pieces::proofs::Fronts::front_of_longer))]
fn begin_nodes(out: &mut Vec<u8>, item: &SegRow) -> Mem<()>
    ensures ok { OnOk result (out.new.items ≡ out.old.items ++ segment_nodes item.now) }
    ensures err { OnErr result (take (length out.old.items) out.new.items ≡ out.old.items) }
{
    begin_index(out, item.index)?;
    begin_node(out, item.a.id)?;
    begin_node(out, item.b.id)
}

/// Puts an index after a space.
fn begin_index(out: &mut Vec<u8>, index: u64) -> Mem<()>
    ensures ok { OnOk result (out.new.items ≡ out.old.items ++ 32 ∷ printed index) }
    ensures err { OnErr result (take (length out.old.items) out.new.items ≡ out.old.items) }
{
    put_bytes(out, b" ")?;
    put_number(out, index)
}

/// Puts a node's id after a space.
#[tactic(auto, unfolding(live_model::specs::CanonicalLines::id_text))]
fn begin_node(out: &mut Vec<u8>, number: i64) -> Mem<()>
    ensures ok { OnOk result (out.new.items ≡ out.old.items ++ 32 ∷ id_text (node_id number)) }
    ensures err { OnErr result (take (length out.old.items) out.new.items ≡ out.old.items) }
{
    begin_number(out, b" n", number)
}

/// Puts a way's id after a space.
#[tactic(auto, unfolding(live_model::specs::CanonicalLines::id_text))]
fn begin_way(out: &mut Vec<u8>, number: i64) -> Mem<()>
    ensures ok { OnOk result (out.new.items ≡ out.old.items ++ 32 ∷ id_text (way_id number)) }
    ensures err { OnErr result (take (length out.old.items) out.new.items ≡ out.old.items) }
{
    begin_number(out, b" w", number)
}

/// Puts a turn restriction.
#[tactic(auto, unfolding(live_model::specs::RowTexts::printed_row), using(text_pieces::proofs::Fronts::front_of_longer))]
fn begin_restriction(out: &mut Vec<u8>, item: &BanRec) -> Mem<()>
    ensures ok { OnOk result (out.new.items ≡ out.old.items ++ printed_row (Ban item.now)) }
    ensures err { OnErr result (take (length out.old.items) out.new.items ≡ out.old.items) }
{
    begin_row(out, b"X", &item.id)?;
    begin_turn(out, item)?;
    begin_located(out, &item.point, &item.value)
}

/// Puts the way that is left, the node and the way that is entered, each after a space.
#[tactic(auto, using(text_pieces::proofs::Fronts::front_of_longer))]
fn begin_turn(out: &mut Vec<u8>, item: &BanRec) -> Mem<()>
    ensures ok { OnOk result (out.new.items ≡ out.old.items ++ turn_text item.now) }
    ensures err { OnErr result (take (length out.old.items) out.new.items ≡ out.old.items) }
{
    begin_way(out, item.from)?;
    begin_entry(out, item.via, item.to)
}

/// Puts the node and the way that is entered there, each after a space.
#[tactic(auto, using(text_pieces::proofs::Fronts::front_of_longer))]
fn begin_entry(out: &mut Vec<u8>, via: i64, to: i64) -> Mem<()>
    ensures ok { OnOk result (out.new.items ≡ out.old.items ++ (32 ∷ id_text (node_id via) ++ (32 ∷ id_text (way_id to)))) }
    ensures err { OnErr result (take (length out.old.items) out.new.items ≡ out.old.items) }
{
    begin_node(out, via)?;
    begin_way(out, to)
}

/// Puts the letter of a row, a space and the object's id.
#[tactic(auto, using(text_pieces::proofs::Fronts::front_of_longer))]
fn begin_row(out: &mut Vec<u8>, letter: &[u8], id: &ObjId) -> Mem<()>
    ensures ok { OnOk result (out.new.items ≡ out.old.items ++ (letter.now ++ 32 ∷ id_text id.now)) }
    ensures err { OnErr result (take (length out.old.items) out.new.items ≡ out.old.items) }
{
    put_bytes(out, letter)?;
    put_bytes(out, b" ")?;
    begin_id(out, id)
}

/// Puts a point and a text, each after a space.
#[tactic(auto, using(text_pieces::proofs::Fronts::front_of_longer))]
fn begin_located(out: &mut Vec<u8>, point: &Point, text: &Text) -> Mem<()>
    ensures ok { OnOk result (out.new.items ≡ out.old.items ++ (32 ∷ point_text point.now ++ 32 ∷ value_text text.now)) }
    ensures err { OnErr result (take (length out.old.items) out.new.items ≡ out.old.items) }
{
    put_bytes(out, b" ")?;
    begin_point(out, point)?;
    begin_value(out, text)
}

/// Puts the letter of the kind and the number of an object.
#[tactic(auto, unfolding(live_model::specs::CanonicalLines::id_text))]
fn begin_id(out: &mut Vec<u8>, id: &ObjId) -> Mem<()>
    ensures ok { OnOk result (out.new.items ≡ out.old.items ++ id_text id.now) }
    ensures err { OnErr result (take (length out.old.items) out.new.items ≡ out.old.items) }
{
    match id.kind() {
        Kind::Node => begin_number(out, b"n", id.number()),
        Kind::Way => begin_number(out, b"w", id.number()),
        Kind::Relation => begin_number(out, b"r", id.number()),
    }
}

/// Puts a number after a mark.
fn begin_number(out: &mut Vec<u8>, mark: &[u8], number: i64) -> Mem<()>
    ensures ok { OnOk result (out.new.items ≡ out.old.items ++ (mark.now ++ signed_decimal number)) }
    ensures err { OnErr result (take (length out.old.items) out.new.items ≡ out.old.items) }
{
    put_bytes(out, mark)?;
    put_signed(out, number)
}

/// Puts a space, `=` and the canonical spelling of a text.
fn begin_value(out: &mut Vec<u8>, text: &Text) -> Mem<()>
    ensures ok { OnOk result (out.new.items ≡ out.old.items ++ (32 ∷ value_text text.now)) }
    ensures err { OnErr result (take (length out.old.items) out.new.items ≡ out.old.items) }
{
    put_bytes(out, b" =")?;
    put_escaped(out, text.as_str())
}

/// Puts `x` and the longitude, `y` and the latitude.
fn begin_point(out: &mut Vec<u8>, point: &Point) -> Mem<()>
    ensures ok { OnOk result (out.new.items ≡ out.old.items ++ point_text point.now) }
    ensures err { OnErr result (take (length out.old.items) out.new.items ≡ out.old.items) }
{
    put_bytes(out, b"x")?;
    put_degrees(out, point.longitude())?;
    put_bytes(out, b"y")?;
    put_degrees(out, point.latitude())
}

/// Puts points, parted by commas.
#[tactic(auto, using(text_pieces::proofs::Fronts::front_of_longer))]
fn begin_points(out: &mut Vec<u8>, points: &[Point]) -> Mem<()>
    ensures ok { OnOk result (out.new.items ≡ out.old.items ++ listed point_text points.now) }
    ensures err { OnErr result (take (length out.old.items) out.new.items ≡ out.old.items) }
{
    let [first, others @ ..] = points else {
        return Ok(());
    };
    begin_point(out, first)?;
    begin_other_points(out, others)
}

/// Puts points, each after a comma.
#[tactic(auto, using(text_pieces::proofs::Fronts::front_of_longer, std::proofs::lemmas::List::flat_map_more))]
fn begin_other_points(out: &mut Vec<u8>, others: &[Point]) -> Mem<()>
    ensures ok { OnOk result (out.new.items ≡ out.old.items ++ flat_map (λ p. 44 ∷ point_text p) others.now) }
    ensures err { OnErr result (take (length out.old.items) out.new.items ≡ out.old.items) }
{
    for point in others {
        put_bytes(out, b",")?;
        begin_point(out, point)?;
    }
    Ok(())
}

/// `point`, `line` or `area`.
fn shape_word(shape: Shape) -> &'static str
    ensures { result.now ≡ shape_text shape }
{
    match shape {
        Shape::Point => "point",
        Shape::Line => "line",
        Shape::Area => "area",
    }
}

/// The letter of a direction between spaces: both ways, forward, or backward.
fn direction_word(direction: Dir) -> &'static [u8]
    ensures { result.now ≡ 32 ∷ direction_text direction ++ 32 ∷ [] }
{
    match direction {
        Dir::Both => b" b ",
        Dir::Forward => b" f ",
        Dir::Backward => b" r ",
    }
}
