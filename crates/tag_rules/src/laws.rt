//! What a reader of rules owes its caller beyond one text: laws, with nothing to run.

ghost use Rattle.live_model.specs.Rules.{CanonicalRulesLaw};
ghost use Rattle.tag_rules.specs.Readings.{IsExact};

/// That what `Rules::read` ensures is one answer. A text spells one list of rules at most, and spells one
/// exactly where it has no break.
pub fn readings_are_exact(bytes: &[u8])
    ensures { IsExact bytes.now }
{
    let _ = bytes.len();
}

/// The canonical text of up to 100,000 rules that rule lines can spell, as `Rules::text` gives it, spells
/// these rules in their order.
pub fn tables_read_back()
    ensures { CanonicalRulesLaw }
{}
