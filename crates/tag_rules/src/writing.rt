//! The canonical text of rules.
//!
//! Where memory is refused a part of a line may stand behind what the buffer had: the buffer is dropped.

ghost use Rattle.std.specs.Prelude.{◌≡◌, ◌++◌, ◌∷◌, Some, IfOk, OnOk};
ghost use Rattle.std.specs.Fmt.{decimal as printed};
ghost use Rattle.text_pieces.specs.Escapes.{escaped};
ghost use Rattle.live_model.specs.Rules.{shape_text, admitted_text, class_text, rule_line, rules_text};

use live_model::{Class, Rule, Shape};
use owned_data::{Mem, Text};
use std::alloc::Global;
use text_pieces::{put_bytes, put_escaped, put_number};

/// The canonical text of these rules.
pub(crate) fn canonical(alloc: Global, rules: &[Rule]) -> Mem<Vec<u8>>
    ensures { IfOk result (λ text. text.items ≡ rules_text rules.now) }
{
    let mut text = Vec::new(alloc);
    for rule in rules {
        put_rule(&mut text, rule)?;
    }
    Ok(text)
}

// Puts the canonical line of a rule, with its line feed.
#[tactic(auto, unfolding(live_model::specs::Rules::rule_line, live_model::specs::Rules::rule_row))]
fn put_rule(out: &mut Vec<u8>, rule: &Rule) -> Mem<()>
    ensures { OnOk result (out.new.items ≡ out.old.items ++ rule_line rule.now) }
{
    put_wanted(out, rule)?;
    put_bytes(out, b" ")?;
    put_made(out, rule)?;
    put_bytes(out, b"\n")
}

// Puts what a rule wants of an object.
fn put_wanted(out: &mut Vec<u8>, rule: &Rule) -> Mem<()>
    ensures { OnOk result (out.new.items ≡ out.old.items ++ (shape_text rule.now.shape ++ 32 ∷ escaped rule.now.key ++ 32 ∷ admitted_text rule.now.value)) }
{
    put_bytes(out, shape_text(rule.shape))?;
    put_bytes(out, b" ")?;
    put_escaped(out, rule.key.as_str())?;
    put_bytes(out, b" ")?;
    put_admitted(out, &rule.value)
}

// Puts what a rule makes of an object.
fn put_made(out: &mut Vec<u8>, rule: &Rule) -> Mem<()>
    ensures { OnOk result (out.new.items ≡ out.old.items ++ (printed rule.now.zoom ++ 32 ∷ class_text rule.now.class)) }
{
    put_number(out, u64::from(rule.zoom))?;
    put_bytes(out, b" ")?;
    put_class(out, &rule.class)
}

fn shape_text(shape: Shape) -> &'static [u8]
    ensures { result.now ≡ shape_text shape }
{
    match shape {
        Shape::Point => b"point",
        Shape::Line => b"line",
        Shape::Area => b"area",
    }
}

// Puts the star of every value, or a value, which is an escape where it is the star itself.
fn put_admitted(out: &mut Vec<u8>, value: &Option<Text>) -> Mem<()>
    ensures { OnOk result (out.new.items ≡ out.old.items ++ admitted_text value.now) }
{
    match value {
        None => put_bytes(out, b"*"),
        Some(text) => put_value(out, text),
    }
}

fn put_value(out: &mut Vec<u8>, text: &Text) -> Mem<()>
    ensures { OnOk result (out.new.items ≡ out.old.items ++ admitted_text (Some text.now)) }
{
    match text.as_bytes() {
        b"*" => put_bytes(out, b"%2a%"),
        _ => put_escaped(out, text.as_str()),
    }
}

fn put_class(out: &mut Vec<u8>, class: &Class) -> Mem<()>
    ensures { OnOk result (out.new.items ≡ out.old.items ++ class_text class.now) }
{
    match class {
        Class::Map => put_bytes(out, b"map"),
        Class::Poi(category) => {
            put_bytes(out, b"poi.")?;
            put_bytes(out, category.as_bytes())
        }
        Class::Road => put_bytes(out, b"road"),
        Class::Place => put_bytes(out, b"place"),
    }
}
