ghost use Rattle.std.specs.Prelude.{◌≡◌};
ghost use Rattle.graph_console.specs.Follow.{delivered_line};

use itoa::Buffer;
use plain_graph::ByteBuffer;

/// The line that tells what came of deliveries, which takes no memory.
pub(crate) type DeliveredLine = ByteBuffer<64>;

/// How many deliveries a follower applied, had before, and lacked the one before.
#[derive(Clone, Copy)]
pub(crate) struct Delivered {
    pub(crate) applied: u32,
    pub(crate) old: u32,
    pub(crate) gap: u32,
}

impl Delivered {
    /// The line that tells it.
    pub(crate) fn line(self) -> DeliveredLine
        ensures { result ≡ delivered_line self }
    {
        let mut digits = Buffer::new();
        let mut line = DeliveredLine::new();
        line.push(b"applied ");
        line.push(digits.format(self.applied).as_bytes());
        line.push(b" old ");
        line.push(digits.format(self.old).as_bytes());
        line.push(b" gap ");
        line.push(digits.format(self.gap).as_bytes());
        line.push(b"\n");
        line
    }
}
