//! The law of tables, as the contract of a function that does nothing.

ghost use Rattle.std.specs.Prelude.{◌≡◌, ℕ, List};
ghost use Rattle.text_table.specs.Tables.{IsTable, table_bytes, AreTexts};

/// The bytes of a table are these texts, and bytes are one table at most.
pub fn one_table()
    ensures again { (texts : List (List ℕ)) → IsTable texts → AreTexts (table_bytes texts) texts }
    ensures one { (bytes : List ℕ) (a b : List (List ℕ)) → AreTexts bytes a → AreTexts bytes b → a ≡ b }
{}
