//! The law of lines in JSON. Nothing is computed.

ghost use Rattle.std.specs.Prelude.{◌≡◌, List, ℕ, decimal, map};
ghost use Rattle.std.specs.List.{AllByRecursion};
ghost use Rattle.report_request.specs.declared.column.Key.{Key as AnyKey};
ghost use Rattle.report_lines.specs.Cells.{quoted};
ghost use Rattle.report_lines.specs.JsonValues.{HasNoQuote, IsValue, object_line};

/// Two lines in JSON with the same keys are the same where all their values are. A value is one that ends where it
/// ends, whatever follows: a number, a text without a quote in quotes.
pub fn json_lines_spell_their_fields()
    ensures lines { (fields others : List (AnyKey × List ℕ)) → map (λ f. f.0) fields ≡ map (λ f. f.0) others →
        AllByRecursion (λ f. IsValue f.1) fields → AllByRecursion (λ f. IsValue f.1) others →
        object_line fields ≡ object_line others → fields ≡ others }
    ensures numbers { (n : ℕ) → IsValue (decimal n) }
    ensures texts { (text : List ℕ) → HasNoQuote text → IsValue (quoted text) }
{}
