ghost use Rattle.std.specs.Prelude.{◌≡◌, ◌<◌, ◌≤◌, ◌%◌, OnOk, length};
ghost use Rattle.disk_model.specs.Generator.{drawn};
ghost use Rattle.graph_console.specs.Sample.{Adds, after_draws, any_node, deletion_turn};
ghost use Rattle.graph_console.specs.Sample.{drawn_age, edge_turn, node_turn, picked_node};
ghost use Rattle.graph_console.specs.Sample.{sample_start, set_turn, turn, type_name};

use crate::sample::generator::Generator;
use crate::sample::made::{Made, made_by};
use itoa::Buffer;
use plain_graph::ByteBuffer;
use std::alloc::{AllocError, Global};
use std::collections::VecDeque;
use std::marker::Model;

/// A line of a sample, which takes no memory.
pub(crate) type SampleLine = ByteBuffer<64>;

/// Draws the lines of a sample, one a turn. Contracts see the state.
#[derive(Drop)]
pub(crate) struct Sampler {
    generator: Generator,
    /// The identifiers of the nodes, in the order made.
    nodes: Vec<u32>,
    /// The identifiers of the edges that are not deleted, the oldest first.
    edges: VecDeque<u32>,
}

impl Model for Sampler {
    ghost use Rattle.graph_console.specs.Sample.{SampleState};

    ghost Value = { SampleState };

    ghost view = { λ s. record { x = s.generator; nodes = s.nodes.items; edges = s.edges.items } };
}

impl Sampler {
    /// A sample of which no line was drawn.
    pub(crate) fn new(alloc: Global, seed: u64) -> Sampler
        ensures { result ≡ sample_start seed }
    {
        Sampler {
            generator: Generator::new(seed),
            nodes: Vec::new(alloc),
            edges: VecDeque::new(alloc),
        }
    }

    /// Ends the sample, and hands the generator over.
    pub(crate) fn into_generator(self) -> Generator
        ensures { result ≡ self.x }
    {
        let Sampler { generator, .. } = self;
        generator
    }

    /// Draws the line of the next turn.
    #[tactic(auto, unfolding(crate::specs::Sample::turn_of))]
    pub(crate) fn next_line(&mut self) -> SampleLine
        ensures line { result ≡ (turn self.old).line }
        ensures after { self.new ≡ (turn self.old).after }
    {
        let kind = self.generator.draw() % 8;
        if self.nodes.is_empty() || kind == 0 {
            return self.node_line();
        }
        match kind {
            1..=5 => self.edge_line(),
            6 => self.set_line(),
            _ => self.deletion_line(),
        }
    }

    /// Notes what the reply to the last line tells that was made.
    pub(crate) fn note(&mut self, text: &[u8]) -> Result<(), AllocError>
        ensures { OnOk result (Adds text.now self.old self.new) }
    {
        match made_by(text)? {
            Made::Node(id) => self.nodes.push(id)?,
            Made::Edge(id) => self.edges.push_back(id)?,
            Made::Nothing => {}
        }
        Ok(())
    }

    #[tactic(auto, unfolding(crate::specs::Sample::node_turn))]
    fn node_line(&mut self) -> SampleLine
        ensures line { result ≡ (node_turn self.old).line }
        ensures after { self.new ≡ (node_turn self.old).after }
    {
        let age = self.draw_age();
        let mut line = SampleLine::new();
        line.push(b"node person age=");
        line.push(Buffer::new().format(age).as_bytes());
        line
    }

    #[tactic(auto, unfolding(crate::specs::Sample::edge_turn))]
    fn edge_line(&mut self) -> SampleLine
        requires { 0 < length self.old.nodes }
        ensures line { result ≡ (edge_turn self.old).line }
        ensures after { self.new ≡ (edge_turn self.old).after }
    {
        let from = self.pick_node();
        let name = type_name(self.generator.draw() % 3);
        let to = self.draw_node();
        let mut digits = Buffer::new();
        let mut line = SampleLine::new();
        line.push(b"edge ");
        line.push(digits.format(from).as_bytes());
        line.push(b" ");
        line.push(name);
        line.push(b" ");
        line.push(digits.format(to).as_bytes());
        line
    }

    #[tactic(auto, unfolding(crate::specs::Sample::set_turn))]
    fn set_line(&mut self) -> SampleLine
        requires { 0 < length self.old.nodes }
        ensures line { result ≡ (set_turn self.old).line }
        ensures after { self.new ≡ (set_turn self.old).after }
    {
        let node = self.pick_node();
        let age = self.draw_age();
        let mut digits = Buffer::new();
        let mut line = SampleLine::new();
        line.push(b"set node ");
        line.push(digits.format(node).as_bytes());
        line.push(b" age ");
        line.push(digits.format(age).as_bytes());
        line
    }

    #[tactic(auto, unfolding(crate::specs::Sample::deletion_turn))]
    fn deletion_line(&mut self) -> SampleLine
        ensures line { result ≡ (deletion_turn self.old self.old.edges).line }
        ensures after { self.new ≡ (deletion_turn self.old self.old.edges).after }
    {
        let Some(oldest) = self.edges.pop_front() else {
            return self.node_line();
        };
        let mut line = SampleLine::new();
        line.push(b"delete edge ");
        line.push(Buffer::new().format(oldest).as_bytes());
        line
    }

    /// Picks a node by two draws, an older one more often.
    fn pick_node(&mut self) -> u32
        requires { 0 < length self.old.nodes }
        ensures node { result ≡ picked_node self.old }
        ensures after { self.new ≡ after_draws 2 self.old }
    {
        let last = self.generator.draw() % self.nodes.len() as u64;
        let index = self.generator.draw() % (last + 1);
        self.nodes[index as usize]
    }

    /// Draws any node.
    fn draw_node(&mut self) -> u32
        requires { 0 < length self.old.nodes }
        ensures node { result ≡ any_node self.old 0 }
        ensures after { self.new ≡ after_draws 1 self.old }
    {
        let index = self.generator.draw() % self.nodes.len() as u64;
        self.nodes[index as usize]
    }

    /// Draws an age.
    fn draw_age(&mut self) -> u32
        ensures age { result ≡ drawn_age self.old 0 }
        ensures below { result < 100 }
        ensures after { self.new ≡ after_draws 1 self.old }
    {
        (self.generator.draw() % 100) as u32
    }
}

/// The type of an edge, by its number.
fn type_name(number: u64) -> &'static [u8]
    ensures name { result.now ≡ type_name number }
    ensures length { length result.now ≤ 5 }
{
    match number {
        0 => b"knows",
        1 => b"likes",
        _ => b"owns",
    }
}
