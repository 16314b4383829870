//! The seventh rule: the degree of each node is the number of relationships at it, and a sparse
//! node has at most as many as the threshold.

ghost use Rattle.std.specs.Prelude.{◌≡◌, ◌-◌, ◌+◌, ◌^◌, ◌<◌, IfOk, OnOk, length, nat_eq, ℕ};
ghost use Rattle.std.specs.Prelude.{if◌then◌else◌};
ghost use Rattle.rec_bytes.specs.Format.{nodes_file, relationships_file};
ghost use Rattle.rec_bytes.specs.Frame.{IsRead};
ghost use Rattle.rec_bytes.specs.Space.{HasCause};
ghost use Rattle.store_rules.specs.Rules.{degree_of};
ghost use Rattle.store_rules.specs.Views.{high, rel_at};
ghost use Rattle.chain_check.specs.Degrees.{AreOfNodes, HasDegree, count_at};
ghost use Rattle.chain_check.specs.NodeChains.{is_of_node};
ghost use Rattle.record_lists.specs.Deciding.{AreMarksLow, DecidesRule};

use rec_bytes::{
    DEGREE_RULE, Damage, FREE, KIND, Key, NODE_DEGREE, NODES, RELATIONSHIP_SOURCE,
    RELATIONSHIP_TARGET, RELATIONSHIPS, Reads, Rec, SPARSE, SpaceFault,
};
use record_lists::{Sentence, find_false};
use std::alloc::Global;

/// Counts one more at a place, if there is such a place.
fn count_one(counts: &mut [u32], at: u32)
    requires { at < length counts.old → count_at counts.old at < 2 ^ 32 - 1 }
    ensures count { (n : ℕ) → n < length counts.old → count_at counts.new n
        ≡ count_at counts.old n + (if nat_eq at n then 1 else 0) }
    ensures len { length counts.new ≡ length counts.old }
{
    let place = at as usize;
    if place < counts.len() {
        counts[place] += 1;
    }
}

/// Counts a record at its ends, if it is a relationship.
fn count_rel(counts: &mut [u32], rec: &Rec)
    requires { (n : ℕ) → n < length counts.old → count_at counts.old n < 2 ^ 32 - 1 }
    ensures count { (n : ℕ) → n < length counts.old → count_at counts.new n
        ≡ count_at counts.old n + (if is_of_node n rec.now then 1 else 0) }
    ensures len { length counts.new ≡ length counts.old }
{
    if rec.byte(KIND) == FREE {
        return;
    }
    let source = rec.number(RELATIONSHIP_SOURCE);
    let target = rec.number(RELATIONSHIP_TARGET);
    count_one(counts, source);
    if target != source {
        count_one(counts, target);
    }
}

/// Counts the relationships at each node.
fn count_ends<R: Reads>(space: &mut R, counts: &mut [u32]) -> Result<(), SpaceFault>
    requires low { AreMarksLow (R.state space.old).records }
    requires none { (n : ℕ) → count_at counts.old n ≡ 0 }
    ensures counts { R.tells → OnOk result ((n : ℕ) → n < length counts.old
        → count_at counts.new n ≡ degree_of (rel_at (R.state space.old).records)
        (high (R.state space.old).records relationships_file) n) }
    ensures len { length counts.new ≡ length counts.old }
    ensures read { IsRead R.Reads space.old space.new }
    ensures cause { HasCause (R.faults space.old) (R.faults space.new) result }
{
    for id in 0..space.meta(RELATIONSHIPS).high {
        let rec = space.get(Key {
            file: RELATIONSHIPS,
            id,
        })?;
        count_rel(counts, &rec);
    }
    Ok(())
}

/// How many relationships there are at each node, and how many a sparse one may have.
#[derive(Drop)]
pub struct Degrees {
    counts: Vec<u32>,
    threshold: u32,
}

impl Sentence for Degrees {
    ghost suits = { AreOfNodes };

    ghost count = { λ degrees. length degrees.counts.items };

    ghost says = { HasDegree };

    fn holds<R: Reads>(&self, space: &mut R, id: u32) -> Result<bool, SpaceFault> {
        let rec = space.get(Key { file: NODES, id })?;
        let kind = rec.byte(KIND);
        if kind == FREE {
            return Ok(true);
        }
        let degree = rec.number(NODE_DEGREE);
        if kind == SPARSE && degree > self.threshold {
            return Ok(false);
        }
        Ok(degree == self.counts[id as usize])
    }
}

/// The counts of all nodes.
fn count_degrees<R: Reads>(alloc: Global, space: &mut R) -> Result<Degrees, SpaceFault>
    requires { AreMarksLow (R.state space.old).records }
    ensures counts { R.tells → IfOk result (λ degrees. (n : ℕ) → n < length degrees.counts.items
        → count_at degrees.counts.items n ≡ degree_of (rel_at (R.state space.old).records)
        (high (R.state space.old).records relationships_file) n) }
    ensures len { IfOk result (λ degrees.
        length degrees.counts.items ≡ high (R.state space.old).records nodes_file) }
    ensures threshold { IfOk result
        (λ degrees. degrees.threshold ≡ (R.state space.old).shape.threshold) }
    ensures read { IsRead R.Reads space.old space.new }
    ensures cause { HasCause (R.faults space.old) (R.faults space.new) result }
{
    let Ok(mut counts) = Vec::from_elem(alloc, 0, space.meta(NODES).high as usize) else {
        return Err(SpaceFault::Memory);
    };
    count_ends(space, &mut counts)?;
    let threshold = space.shape().threshold as u32;
    Ok(Degrees { counts, threshold })
}

/// Decides the seventh rule.
pub fn check_degrees<R: Reads>(alloc: Global, space: &mut R) -> Result<Option<Damage>, SpaceFault>
    requires { AreMarksLow (R.state space.old).records }
    ensures decided { R.tells → IfOk result
        (DecidesRule (R.state space.old).records (R.state space.old).shape 7) }
    ensures read { IsRead R.Reads space.old space.new }
    ensures cause { HasCause (R.faults space.old) (R.faults space.new) result }
{
    let degrees = count_degrees(alloc, space)?;
    let nodes = space.meta(NODES).high;
    match find_false(space, &degrees, nodes)? {
        Some(id) => Ok(Some(Damage {
            file: NODES,
            id,
            rule: DEGREE_RULE,
        })),
        None => Ok(None),
    }
}
