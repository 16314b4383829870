/// Which of the edges at a vertex are meant.
#[derive(Clone, Copy)]
pub enum Direction {
    /// Those that leave it.
    Outgoing,
    /// Those that enter it.
    Incoming,
    /// Those that leave it, and then those that enter it. A loop does both.
    Both,
}
