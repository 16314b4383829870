//! Chains of relationships, linked in both directions: one more at the front, one taken out, a
//! walk, and a walk that only counts. An edit costs at most three reads and three writes, a walk a
//! read for each relationship. Only a walk that gives rows takes memory of its own.
#![tactic(auto)]

mod chain;
mod head;
mod length;
mod links;
mod members;
mod pushing;
mod unlinking;
mod walking;

pub use chain::Chain;
pub use head::Head;
pub use length::chain_length;
pub use members::Members;
pub use pushing::push_front;
pub use unlinking::unlink;
pub use walking::walk;
