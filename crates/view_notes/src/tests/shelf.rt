//! Contents that are resident and contents that are absent.

ghost use Rattle.std.specs.Prelude.{nat_eq};
ghost use Rattle.std.specs.List.{list_any};
ghost use Rattle.std.specs.Cmp.Lexicographic.{pointwise};

use crate::Awaited;
use cut_core::{Holdings, is_missing};
use std::alloc::{AllocError, Global};
use tile_types::Text;

/// The addresses of resident contents and of absent ones.
#[derive(Drop)]
pub struct Shelf {
    resident: Vec<Text>,
    absent: Vec<Text>,
}

impl Shelf {
    /// The contents of these addresses, which stand between spaces.
    pub fn new(alloc: Global, resident: &str, absent: &str) -> Result<Shelf, AllocError> {
        Ok(Shelf {
            resident: addresses(alloc, resident)?,
            absent: addresses(alloc, absent)?,
        })
    }
}

fn addresses(alloc: Global, text: &str) -> Result<Vec<Text>, AllocError> {
    let mut addresses = Vec::new(alloc);
    for word in text.split(' ') {
        addresses.push(Text::new(alloc, word)?)?;
    }
    Ok(addresses)
}

impl Holdings for Shelf {
    ghost holdings = { λ s. record {
      resident = λ address. list_any (λ a. pointwise nat_eq a address) s.resident.items;
      absent = λ address. list_any (λ a. pointwise nat_eq a address) s.absent.items;
    } };

    fn resident(&self, address: &Text) -> bool {
        self.resident.iter().any(|a| a == address)
    }

    fn absent(&self, address: &Text) -> bool {
        self.absent.iter().any(|a| a == address)
    }
}

impl Awaited for Shelf {
    ghost use Rattle.std.specs.Prelude.{nat_eq, not, ◌&&◌};

    ghost awaited = { λ s address.
        not (list_any (λ a. pointwise nat_eq a address) s.absent.items)
        && not (list_any (λ a. pointwise nat_eq a address) s.resident.items) };

    fn is_awaited(&self, address: &Text) -> bool {
        is_missing(self, address)
    }
}
