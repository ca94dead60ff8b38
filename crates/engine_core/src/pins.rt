//! The pins of several addresses.

ghost use Rattle.std.specs.Prelude.{◌≡◌, ◌≤◌, ◌+◌, ◌<◌, ℕ, List, All, IsTrue, length};
ghost use Rattle.tile_cache.specs.Pins.{SamePins, times};
ghost use Rattle.tile_cache.specs.Residents.{has_address};
ghost use Rattle.tile_cache.specs.declared.cache.TheConstants.{PIN_LIMIT};
ghost use Rattle.engine_core.specs.Holding.{used_in_turn};

use tile_cache::Cache;
use tile_types::Text;

/// Pins the content at each of these addresses once more. It takes no memory.
pub(crate) fn pin_all(cache: &mut Cache, addresses: &[Text])
    requires resident { All (λ a. IsTrue (has_address cache.old.residents a)) addresses.now }
    requires limit { (a : List ℕ) → times a cache.old.pins + length addresses.now < PIN_LIMIT }
    ensures residents { cache.new.residents ≡ cache.old.residents }
    ensures pins { (a : List ℕ) → times a cache.new.pins
        ≡ times a cache.old.pins + times a addresses.now }
    ensures budget { cache.new.budget ≡ cache.old.budget }
{
    for address in addresses {
        cache.pin(address);
    }
}

/// Takes one pin of each of these addresses off. It takes no memory.
pub(crate) fn unpin_all(cache: &mut Cache, addresses: &[Text])
    requires { (a : List ℕ) → times a addresses.now ≤ times a cache.old.pins }
    ensures residents { cache.new.residents ≡ cache.old.residents }
    ensures pins { (a : List ℕ) → times a cache.old.pins
        ≡ times a cache.new.pins + times a addresses.now }
    ensures budget { cache.new.budget ≡ cache.old.budget }
{
    for address in addresses {
        cache.unpin(address);
    }
}

/// Notes that the contents at these addresses are used, in turn. It takes no memory.
pub(crate) fn touch_all(cache: &mut Cache, addresses: &[Text])
    ensures residents { cache.new.residents ≡ used_in_turn addresses.now cache.old.residents }
    ensures pins { SamePins cache.old.pins cache.new.pins }
    ensures budget { cache.new.budget ≡ cache.old.budget }
{
    for address in addresses {
        cache.touch(address);
    }
}
