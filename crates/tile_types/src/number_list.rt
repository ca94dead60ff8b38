//! Lists of numbers.

use lists::List;

/// Numbers, in order.
pub type NumberList = List<u64>;
