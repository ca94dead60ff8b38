//! Laws that tie the grammar to what its texts stand for.

ghost use Rattle.std.specs.Prelude.{ℕ, List, ◌↔◌};
ghost use Rattle.json_decimal.specs.Decimals.{IsDecimal};
ghost use Rattle.json_decimal.specs.Grammar.{IsNumber};

/// A text is a number of the grammar exactly where it spells a decimal: a sign, digits and an
/// exponent (RFC 8259, section 6).
pub fn numbers_are_decimals()
    ensures { (text : List ℕ) → IsNumber text ↔ IsDecimal text }
{}
