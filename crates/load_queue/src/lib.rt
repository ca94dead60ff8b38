//! The wanted keys, ranked by an order: which of them is loaded next is found at once.
#![tactic(auto)]

mod distinct;
mod entry;
mod keyed_wants;
mod least_ranks;
mod order_rank;
mod rank;
mod rank_at;
mod ranked_queue;
#[cfg(test)]
mod tests;

pub use distinct::are_keys_distinct;
pub use order_rank::OrderRank;
pub use rank::Rank;
pub use ranked_queue::RankedQueue;
