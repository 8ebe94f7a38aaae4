//! The pieces of a line.
//!
//! Where memory is refused a part of the piece may stand behind what the buffer had.

ghost use Rattle.std.specs.Prelude.{◌≡◌, ◌++◌, ◌∷◌, [], length, take, codes, OnOk, OnErr};
ghost use Rattle.std.specs.Fmt.{signed_decimal};
ghost use Rattle.std.specs.List.{flat_map};
ghost use Rattle.live_model.specs.CanonicalLines.{kind_letter, id_text, tag_text, ref_text, member_text, listed, place_text};

use live_model::{Kind, Member, ObjId, Point, Tag};
use owned_data::Mem;
use text_pieces::{put_bytes, put_degrees, put_escaped, put_signed};

// Puts the letter of the kind and the number.
#[tactic(auto, unfolding(live_model::specs::CanonicalLines::id_text))]
pub fn begin_id(out: &mut Vec<u8>, id: &ObjId) -> Mem<()>
    ensures ok { OnOk result (out.new.items ≡ out.old.items ++ id_text id.now) }
    ensures err { OnErr result (take (length out.old.items) out.new.items ≡ out.old.items) }
{
    put_bytes(out, kind_letter(id.kind()))?;
    put_signed(out, id.number())
}

// The letter that stands before the number of an object.
fn kind_letter(kind: Kind) -> &'static [u8]
    ensures { result.now ≡ kind_letter kind ∷ [] }
{
    match kind {
        Kind::Node => b"n",
        Kind::Way => b"w",
        Kind::Relation => b"r",
    }
}

// Puts the tags, parted by commas.
#[tactic(auto, using(text_pieces::proofs::Fronts::front_of_longer))]
pub fn begin_tags(out: &mut Vec<u8>, tags: &[Tag]) -> Mem<()>
    ensures ok { OnOk result (out.new.items ≡ out.old.items ++ listed tag_text tags.now) }
    ensures err { OnErr result (take (length out.old.items) out.new.items ≡ out.old.items) }
{
    let [first, others @ ..] = tags else {
        return Ok(());
    };
    begin_tag(out, first)?;
    begin_other_tags(out, others)
}

// Puts tags, each behind a comma.
#[tactic(auto, using(text_pieces::proofs::Fronts::front_of_longer, std::proofs::lemmas::List::flat_map_more))]
fn begin_other_tags(out: &mut Vec<u8>, others: &[Tag]) -> Mem<()>
    ensures ok { OnOk result (out.new.items ≡ out.old.items ++ flat_map (λ t. 44 ∷ tag_text t) others.now) }
    ensures err { OnErr result (take (length out.old.items) out.new.items ≡ out.old.items) }
{
    for tag in others {
        put_bytes(out, b",")?;
        begin_tag(out, tag)?;
    }
    Ok(())
}

// Puts the key and the value of a tag.
#[tactic(auto, unfolding(live_model::specs::CanonicalLines::tag_text))]
fn begin_tag(out: &mut Vec<u8>, tag: &Tag) -> Mem<()>
    ensures ok { OnOk result (out.new.items ≡ out.old.items ++ tag_text tag.now) }
    ensures err { OnErr result (take (length out.old.items) out.new.items ≡ out.old.items) }
{
    put_escaped(out, tag.key.as_str())?;
    put_bytes(out, b"=")?;
    put_escaped(out, tag.value.as_str())
}

// Puts the place of a node, or the empty values of one that has none.
pub fn begin_place(out: &mut Vec<u8>, place: Option<Point>) -> Mem<()>
    ensures ok { OnOk result (out.new.items ≡ out.old.items ++ place_text place) }
    ensures err { OnErr result (take (length out.old.items) out.new.items ≡ out.old.items) }
{
    let Some(point) = place else {
        return put_bytes(out, b" x y");
    };
    put_bytes(out, b" x")?;
    put_degrees(out, point.longitude())?;
    put_bytes(out, b" y")?;
    put_degrees(out, point.latitude())
}

// Puts the nodes of a way, parted by commas.
#[tactic(auto, unfolding(live_model::specs::CanonicalLines::ref_text), using(text_pieces::proofs::Fronts::front_of_longer))]
pub fn begin_refs(out: &mut Vec<u8>, refs: &[i64]) -> Mem<()>
    ensures ok { OnOk result (out.new.items ≡ out.old.items ++ (codes " N" ++ listed ref_text refs.now)) }
    ensures err { OnErr result (take (length out.old.items) out.new.items ≡ out.old.items) }
{
    put_bytes(out, b" N")?;
    let [first, others @ ..] = refs else {
        return Ok(());
    };
    begin_ref(out, b"n", *first)?;
    begin_other_refs(out, others)
}

// Puts nodes, each behind a comma.
#[tactic(auto, unfolding(live_model::specs::CanonicalLines::ref_text), using(text_pieces::proofs::Fronts::front_of_longer, std::proofs::lemmas::List::flat_map_more))]
fn begin_other_refs(out: &mut Vec<u8>, others: &[i64]) -> Mem<()>
    ensures ok { OnOk result (out.new.items ≡ out.old.items ++ flat_map (λ n. 44 ∷ ref_text n) others.now) }
    ensures err { OnErr result (take (length out.old.items) out.new.items ≡ out.old.items) }
{
    for number in others {
        begin_ref(out, b",n", *number)?;
    }
    Ok(())
}

// Puts these bytes and the number of a node.
fn begin_ref(out: &mut Vec<u8>, mark: &[u8], number: i64) -> Mem<()>
    ensures ok { OnOk result (out.new.items ≡ out.old.items ++ (mark.now ++ signed_decimal number)) }
    ensures err { OnErr result (take (length out.old.items) out.new.items ≡ out.old.items) }
{
    put_bytes(out, mark)?;
    put_signed(out, number)
}

// Puts the members of a relation, parted by commas.
#[tactic(auto, using(text_pieces::proofs::Fronts::front_of_longer))]
pub fn begin_members(out: &mut Vec<u8>, members: &[Member]) -> Mem<()>
    ensures ok { OnOk result (out.new.items ≡ out.old.items ++ (codes " M" ++ listed member_text members.now)) }
    ensures err { OnErr result (take (length out.old.items) out.new.items ≡ out.old.items) }
{
    put_bytes(out, b" M")?;
    let [first, others @ ..] = members else {
        return Ok(());
    };
    begin_member(out, first)?;
    begin_other_members(out, others)
}

// Puts members, each behind a comma.
#[tactic(auto, using(text_pieces::proofs::Fronts::front_of_longer, std::proofs::lemmas::List::flat_map_more))]
fn begin_other_members(out: &mut Vec<u8>, others: &[Member]) -> Mem<()>
    ensures ok { OnOk result (out.new.items ≡ out.old.items ++ flat_map (λ m. 44 ∷ member_text m) others.now) }
    ensures err { OnErr result (take (length out.old.items) out.new.items ≡ out.old.items) }
{
    for member in others {
        put_bytes(out, b",")?;
        begin_member(out, member)?;
    }
    Ok(())
}

// Puts the target and the role of a member.
#[tactic(auto, unfolding(live_model::specs::CanonicalLines::member_text), using(text_pieces::proofs::Fronts::front_of_longer))]
fn begin_member(out: &mut Vec<u8>, member: &Member) -> Mem<()>
    ensures ok { OnOk result (out.new.items ≡ out.old.items ++ member_text member.now) }
    ensures err { OnErr result (take (length out.old.items) out.new.items ≡ out.old.items) }
{
    begin_id(out, &member.target)?;
    put_bytes(out, b"@")?;
    put_escaped(out, member.role.as_str())
}
