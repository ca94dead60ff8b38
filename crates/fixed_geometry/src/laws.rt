//! Laws that tie the definitions to what they stand for.

ghost use Rattle.std.specs.Prelude.{◌≡◌, ℕ};
ghost use Rattle.fixed_geometry.specs.Decimal.{fixed};
ghost use Rattle.fixed_geometry.specs.declared.point.Point.{Point};
ghost use Rattle.fixed_geometry.specs.Points.{IsWithin, coordinate_limit};
ghost use Rattle.fixed_geometry.specs.Maps.{Map, IsBounded, parts};
ghost use Rattle.fixed_geometry.specs.Maps.{identity, after, apply, apply_vector, max_scale};
ghost use Rattle.fixed_geometry.specs.Spelling.{Spelling, IsSpelling, text_of, decimal_of};

/// A number's text is read as the decimal that its sign, digits and exponent stand for (RFC 8259,
/// section 6).
pub fn decimal_follows_spelling()
    ensures { (s : Spelling) (places : ℕ) → IsSpelling s
        → fixed (text_of s) places ≡ decimal_of s places }
{}

/// The identity is neutral in products of maps, on either side.
pub fn identity_is_neutral()
    ensures own { (m : Map) → IsBounded m → after m identity ≡ m }
    ensures parent { (m : Map) → IsBounded m → after identity m ≡ m }
{}

/// The identity moves no point, changes no vector and stretches nothing.
pub fn identity_moves_nothing()
    ensures points { (p : Point) → IsWithin coordinate_limit p → apply identity p ≡ p }
    ensures vectors { (v : Point) → IsWithin coordinate_limit v → apply_vector identity v ≡ v }
    ensures scale { max_scale identity ≡ parts }
{}
