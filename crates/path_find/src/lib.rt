//! Shortest walks between nodes, with levels that prove that no walk is shorter.
#![tactic(auto)]

mod answer;
mod checking;
mod descending;
mod ends;
mod finding;
mod growing;
mod known;
mod levels;
mod meeting;
mod neighbours;
mod node_test;
mod places;
mod reach;
mod reading;
mod searching;
mod sharing;
mod stepping;
mod tree;
mod walk;
mod walk_search;
mod walking;

pub use answer::Answer;
pub use checking::check_levels;
pub use finding::find_path;
pub use levels::Levels;
pub use walk::Walk;
pub use walk_search::WalkSearch;
pub use walking::find_walk;
