//! Which contents a core has.

ghost use Rattle.engine_core.specs.Holding.{holdings_of};

use cut_core::Holdings;
use indexmap::IndexSet;
use tile_cache::Cache;
use tile_types::Text;

/// The contents of a cache, and the addresses of those of which nothing comes.
#[derive(Drop)]
pub(crate) struct Contents<'a> {
    pub(crate) cache: &'a Cache,
    pub(crate) absent: &'a IndexSet<Text>,
}

impl Holdings for Contents<'_> {
    ghost holdings = { λ c. holdings_of c.cache.now.residents c.absent.now.keys };

    fn resident(&self, address: &Text) -> bool {
        self.cache.holds(address)
    }

    fn absent(&self, address: &Text) -> bool {
        self.absent.contains(address)
    }
}
