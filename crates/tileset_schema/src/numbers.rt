//! Lists of just so many numbers.

ghost use Rattle.std.specs.Prelude.{◌≡◌, length, option_map};
ghost use Rattle.json_decimal.specs.Handles.{json_of};
ghost use Rattle.json_decimal.specs.Named.{plain};
ghost use Rattle.tileset_schema.specs.Numbers.{numbers};

use json_decimal::JsonRef;

/// Puts the spellings of a list of numbers at the places, if there are just as many. It takes no
/// memory.
pub fn numbers<'a>(value: JsonRef<'a>, places: &mut [&'a str]) -> Option<()>
    ensures { option_map (λ _. plain places.new) result
        ≡ numbers (length places.old) (json_of value.entry) }
{
    let mut rest = value.items()?;
    for i in 0..places.len() {
        places[i] = rest.next()?.number()?;
    }
    match rest.next() {
        None => Some(()),
        Some(_) => None,
    }
}
