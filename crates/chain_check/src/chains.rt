//! The third rule: the chains of each node, its own or those of its groups, have just the
//! relationships at it.

ghost use Rattle.std.specs.Prelude.{◌≡◌, ◌⊎◌, ◌+◌, ◌*◌, ◌%◌, ◌<◌, ◌≤◌, IfNone, IfOk, IfSome, false};
ghost use Rattle.std.specs.Prelude.{length, map, true, ℕ};
ghost use Rattle.std.specs.Bool.{Decides};
ghost use Rattle.std.specs.List.{All};
ghost use Rattle.rec_bytes.specs.Format.{groups_file, most_ids, nodes_file, relationships_file};
ghost use Rattle.rec_bytes.specs.Frame.{IsRead};
ghost use Rattle.rec_bytes.specs.Space.{HasCause};
ghost use Rattle.store_rules.specs.Views.{high, kind_at};
ghost use Rattle.record_lists.specs.Heads.{AmongHeads, BrokeIs, FoundBelow, HeadKeeps};
ghost use Rattle.chain_check.specs.Chained.{SeesChains};
ghost use Rattle.chain_check.specs.Kinds.{kind_of};
ghost use Rattle.chain_check.specs.LinkRows.{AreRowEndsOf};
ghost use Rattle.record_lists.specs.Seen.{is_seen};
ghost use Rattle.chain_check.specs.NodeChains.{
  AreAttached,
  AreChainHeads,
  AreGroupEnds,
  AreGroupHeads,
  AreMet,
  AreNodeEnds,
  EndHolds,
  EndsFound,
  IsChained,
  IsSparse,
  RelHolds,
  chain_line,
  end_in,
  end_of,
  group_of,
  is_on,
  side_at,
};
ghost use Rattle.record_lists.specs.Deciding.{AreMarksLow, BreaksRule, DecidesRule};

use crate::chained::chained_groups;
use crate::kinds::node_kinds;
use crate::link_rows::{LinkRow, link_rows};
use crate::row_chains::row_chain_ends;
use rec_bytes::{
    CHAIN_RULE, DENSE, Damage, FREE, GROUP_FIRST_IN, GROUP_FIRST_OUT, GROUP_OWNER, GROUP_TYPE,
    GROUPS, KIND, Key, NODE_FIRST_LINK, NODES, RELATIONSHIP_SOURCE, RELATIONSHIP_TARGET,
    RELATIONSHIP_TYPE, RELATIONSHIPS, Reads, Rec, SPARSE, SpaceFault,
};
use record_lists::{
    Broke, Found, Heads, Line, Sentence, broken, find_false, follow, list_heads, none_seen,
};
use rel_store::place_of;
use std::alloc::Global;

/// Which relationships of its node a chain has: all, or those of one type that leave it alone,
/// enter it alone, or do both.
#[derive(Clone, Copy)]
pub enum Side {
    Any,
    Out(u32),
    Into(u32),
    Loop(u32),
}

impl Side {
    fn has(&self, node: u32, rec: &Rec) -> bool
        ensures { result ≡ is_on self.now node rec.now }
    {
        let leaves = rec.number(RELATIONSHIP_SOURCE) == node;
        let enters = rec.number(RELATIONSHIP_TARGET) == node;
        let label = rec.number(RELATIONSHIP_TYPE);
        match *self {
            Side::Any => leaves || enters,
            Side::Out(own) => leaves && !enters && label == own,
            Side::Into(own) => !leaves && enters && label == own,
            Side::Loop(own) => leaves && enters && label == own,
        }
    }
}

/// A chain of a node.
#[derive(Drop)]
pub(crate) struct ChainLine {
    pub(crate) node: u32,
    pub(crate) side: Side,
}

impl Line for ChainLine {
    ghost kind = { λ line. chain_line line.side line.node };

    fn file(&self) -> u8 {
        RELATIONSHIPS
    }

    fn next(&self, rec: &Rec) -> u32 {
        rec.number(place_of(rec, self.node) + 4)
    }

    fn fits(&self, before: u32, _at: u32, rec: &Rec) -> bool {
        rec.byte(KIND) != FREE
            && self.side.has(self.node, rec)
            && rec.number(place_of(rec, self.node)) == before
    }
}

/// The ends at a node of these relationships.
fn ends_of<R: Reads>(
    alloc: Global,
    space: &mut R,
    node: u32,
    ids: &[u32],
    high: u32,
) -> Result<Vec<u32>, SpaceFault>
    requires high { high ≤ most_ids }
    requires ids { All (λ x. x < high) ids.now }
    ensures ends { R.tells → IfOk result
        (λ ends. ends.items ≡ map (end_of (R.state space.old).records node) ids.now) }
    ensures low { IfOk result (λ ends. All (λ x. x < 2 * high) ends.items) }
    ensures read { IsRead R.Reads space.old space.new }
    ensures cause { HasCause (R.faults space.old) (R.faults space.new) result }
{
    let mut ends = Vec::new(alloc);
    for id in ids {
        let rec = space.get(Key {
            file: RELATIONSHIPS,
            id: *id,
        })?;
        let end = if rec.number(RELATIONSHIP_SOURCE) == node {
            2 * *id
        } else {
            2 * *id + 1
        };
        let Ok(()) = ends.push(end) else {
            return Err(SpaceFault::Memory);
        };
    }
    Ok(ends)
}

/// The ends in the chain from a relationship on, if there is such a chain.
fn chain_ends<R: Reads>(
    alloc: Global,
    space: &mut R,
    line: &ChainLine,
    first: u32,
    high: u32,
) -> Result<Found, SpaceFault>
    requires { high ≤ most_ids }
    ensures told { R.tells → IfOk result
        (EndsFound (R.state space.old).records high line.now.side line.now.node first) }
    ensures low { IfOk result (FoundBelow (2 * high)) }
    ensures read { IsRead R.Reads space.old space.new }
    ensures cause { HasCause (R.faults space.old) (R.faults space.new) result }
{
    let Some(ids) = follow(alloc, space, line, first, high)? else {
        return Ok(Found::Missing);
    };
    let ends = ends_of(alloc, space, line.node, &ids, high)?;
    Ok(Found::Items(ends))
}

/// The sparse nodes, at which chains start. The rows are those of all relationships.
#[derive(Drop)]
pub struct ChainHeads<'a> {
    nodes: u32,
    rows: &'a [LinkRow],
}

impl<'a> Heads for ChainHeads<'a> {
    ghost has = { λ _. IsSparse };

    ghost lists = { λ heads. AreRowEndsOf heads.rows.now };

    ghost suits = { AreChainHeads };

    ghost count = { λ heads. heads.nodes };

    ghost bound = { λ heads. 2 * length heads.rows.now };

    fn list<R: Reads>(&self, alloc: Global, space: &mut R, id: u32) -> Result<Found, SpaceFault> {
        let rec = space.get(Key { file: NODES, id })?;
        if rec.byte(KIND) != SPARSE {
            return Ok(Found::Nothing);
        }
        let first = rec.number(NODE_FIRST_LINK);
        let Ok(found) = row_chain_ends(alloc, self.rows, id, first) else {
            return Err(SpaceFault::Memory);
        };
        Ok(found)
    }
}

/// The side of the chain that begins at a place of a group.
pub(crate) fn side_at(place: u8, label: u32) -> Side
    ensures { result ≡ side_at place label }
{
    if place == GROUP_FIRST_OUT {
        Side::Out(label)
    } else if place == GROUP_FIRST_IN {
        Side::Into(label)
    } else {
        Side::Loop(label)
    }
}

/// The groups that are seen, which are on the group chain of their owner. Three chains start at
/// each.
#[derive(Drop)]
pub struct GroupHeads<'a> {
    chained: &'a [bool],
    relationships: u32,
}

impl<'a> Heads for GroupHeads<'a> {
    ghost has = { λ heads records id. IsChained heads.chained.now records (group_of id) };

    ghost lists = { λ _. AreGroupEnds };

    ghost suits = { AreGroupHeads };

    ghost count = { λ heads. 3 * length heads.chained.now };

    ghost bound = { λ heads. 2 * heads.relationships };

    fn list<R: Reads>(&self, alloc: Global, space: &mut R, id: u32) -> Result<Found, SpaceFault> {
        let group = id / 3;
        if !self.chained[group as usize] {
            return Ok(Found::Nothing);
        }
        let place = GROUP_FIRST_OUT + 4 * (id % 3) as u8;
        let rec = space.get(Key {
            file: GROUPS,
            id: group,
        })?;
        let node = rec.number(GROUP_OWNER);
        let label = rec.number(GROUP_TYPE);
        if rec.byte(KIND) == FREE {
            return Ok(Found::Nothing);
        }
        let line = ChainLine {
            node,
            side: side_at(place, label),
        };
        let first = rec.number(place);
        let found = chain_ends(alloc, space, &line, first, self.relationships)?;
        Ok(found)
    }
}

/// Whether a number is that of a node, and the end was met.
fn end_holds(kinds: &[u8], id: u32, met: bool) -> bool
    ensures { Decides result (EndHolds (kind_of kinds.now) id met) }
{
    if id as usize >= kinds.len() {
        return false;
    }
    let kind = kinds[id as usize];
    if kind == FREE {
        return false;
    }
    met || kind != SPARSE && kind != DENSE
}

/// The number of the end of a relationship at a node.
fn end_of(rec: &Rec, node: u32, id: u32) -> usize
    requires { id < most_ids }
    ensures is { result ≡ end_in rec.now node id }
    ensures low { result < 2 * id + 2 }
{
    if rec.number(RELATIONSHIP_SOURCE) == node {
        2 * id as usize
    } else {
        2 * id as usize + 1
    }
}

/// The ends of a relationship are nodes, and seen.
#[derive(Drop)]
pub struct Attached<'a> {
    relationships: u32,
    kinds: &'a [u8],
    seen: &'a [bool],
}

impl<'a> Sentence for Attached<'a> {
    ghost suits = { AreAttached };

    ghost count = { λ attached. attached.relationships };

    ghost says = { λ attached records.
        RelHolds (kind_of attached.kinds.now) records attached.seen.now };

    fn holds<R: Reads>(&self, space: &mut R, id: u32) -> Result<bool, SpaceFault> {
        let rec = space.get(Key {
            file: RELATIONSHIPS,
            id,
        })?;
        if rec.byte(KIND) == FREE {
            return Ok(true);
        }
        let source = rec.number(RELATIONSHIP_SOURCE);
        let target = rec.number(RELATIONSHIP_TARGET);
        let leaves = end_holds(self.kinds, source, self.seen[end_of(&rec, source, id)]);
        let enters = end_holds(self.kinds, target, self.seen[end_of(&rec, target, id)]);
        Ok(leaves && enters)
    }
}

/// The first relationship of which an end doesn't hold.
fn find_loose<R: Reads>(
    alloc: Global,
    space: &mut R,
    seen: &[bool],
) -> Result<Option<u32>, SpaceFault>
    requires low { AreMarksLow (R.state space.old).records }
    requires seen { length seen.now
        ≡ 2 * high (R.state space.old).records relationships_file }
    ensures none { R.tells → IfOk result (λ found. IfNone found
        ((x : ℕ) → x < high (R.state space.old).records relationships_file
        → RelHolds (kind_at (R.state space.old).records nodes_file) (R.state space.old).records
        seen.now x)) }
    ensures found { R.tells → IfOk result (λ found. IfSome found
        (λ x. (x < high (R.state space.old).records relationships_file)
        × (¬ RelHolds (kind_at (R.state space.old).records nodes_file)
        (R.state space.old).records seen.now x))) }
    ensures read { IsRead R.Reads space.old space.new }
    ensures cause { HasCause (R.faults space.old) (R.faults space.new) result }
{
    let kinds = node_kinds(alloc, space)?;
    let relationships = space.meta(RELATIONSHIPS).high;
    let attached = Attached {
        relationships,
        kinds: &kinds,
        seen,
    };
    find_false(space, &attached, relationships)
}

/// Sees the ends in the chains of sparse nodes, or finds a node without its chain.
fn see_node_ends<R: Reads>(
    alloc: Global,
    space: &mut R,
    seen: &mut [bool],
) -> Result<Option<Broke>, SpaceFault>
    requires low { AreMarksLow (R.state space.old).records }
    requires seen { length seen.old
        ≡ 2 * high (R.state space.old).records relationships_file }
    ensures keeps { R.tells → IfOk result (λ found. IfNone found
        ((k : ℕ) → k < high (R.state space.old).records nodes_file → HeadKeeps
        (IsSparse (R.state space.old).records) (AreNodeEnds (R.state space.old).records) k)) }
    ensures seen { R.tells → IfOk result (λ found. IfNone found ((p : ℕ) → Decides
        (is_seen seen.new p) ((is_seen seen.old p ≡ true) ⊎ AmongHeads
        (IsSparse (R.state space.old).records) (AreNodeEnds (R.state space.old).records)
        (high (R.state space.old).records nodes_file) p))) }
    ensures broken { R.tells → IfOk result (λ found. IfSome found (BrokeIs
        (IsSparse (R.state space.old).records) (AreNodeEnds (R.state space.old).records)
        (high (R.state space.old).records nodes_file) seen.old)) }
    ensures len { length seen.new ≡ length seen.old }
    ensures read { IsRead R.Reads space.old space.new }
    ensures cause { HasCause (R.faults space.old) (R.faults space.new) result }
{
    let rows = link_rows(alloc, space)?;
    let nodes = space.meta(NODES).high;
    let heads = ChainHeads { nodes, rows: &rows };
    list_heads(alloc, space, &heads, nodes, seen)
}

/// Sees the ends in the chains of all nodes and groups, or finds what breaks the third rule.
fn see_ends<R: Reads>(
    alloc: Global,
    space: &mut R,
    chained: &[bool],
    seen: &mut [bool],
) -> Result<Option<Damage>, SpaceFault>
    requires low { AreMarksLow (R.state space.old).records }
    requires groups { length chained.now ≡ high (R.state space.old).records groups_file }
    requires chained { R.tells → SeesChains (R.state space.old).records chained.now }
    requires seen { length seen.old
        ≡ 2 * high (R.state space.old).records relationships_file }
    requires clear { (p : ℕ) → is_seen seen.old p ≡ false }
    ensures met { R.tells → IfOk result
        (λ found. IfNone found (AreMet (R.state space.old).records seen.new)) }
    ensures broken { R.tells → IfOk result (λ found. IfSome found
        (BreaksRule (R.state space.old).records (R.state space.old).shape 3)) }
    ensures len { length seen.new ≡ length seen.old }
    ensures read { IsRead R.Reads space.old space.new }
    ensures cause { HasCause (R.faults space.old) (R.faults space.new) result }
{
    let groups = space.meta(GROUPS).high;
    let relationships = space.meta(RELATIONSHIPS).high;
    match see_node_ends(alloc, space, seen)? {
        Some(Broke::Head(id)) => return Ok(Some(broken(NODES, id, CHAIN_RULE))),
        Some(Broke::Item(end)) => return Ok(Some(broken(RELATIONSHIPS, end / 2, CHAIN_RULE))),
        None => {}
    }
    let heads = GroupHeads {
        chained,
        relationships,
    };
    match list_heads(alloc, space, &heads, 3 * groups, seen)? {
        Some(Broke::Head(id)) => Ok(Some(broken(GROUPS, id / 3, CHAIN_RULE))),
        Some(Broke::Item(end)) => Ok(Some(broken(RELATIONSHIPS, end / 2, CHAIN_RULE))),
        None => Ok(None),
    }
}

/// Decides the third rule, with a bit for each end of a relationship, none of them seen.
fn check_seen<R: Reads>(
    alloc: Global,
    space: &mut R,
    chained: &[bool],
    seen: &mut [bool],
) -> Result<Option<Damage>, SpaceFault>
    requires low { AreMarksLow (R.state space.old).records }
    requires groups { length chained.now ≡ high (R.state space.old).records groups_file }
    requires chained { R.tells → SeesChains (R.state space.old).records chained.now }
    requires seen { length seen.old
        ≡ 2 * high (R.state space.old).records relationships_file }
    requires clear { (p : ℕ) → is_seen seen.old p ≡ false }
    ensures decided { R.tells → IfOk result
        (DecidesRule (R.state space.old).records (R.state space.old).shape 3) }
    ensures read { IsRead R.Reads space.old space.new }
    ensures cause { HasCause (R.faults space.old) (R.faults space.new) result }
{
    if let Some(damage) = see_ends(alloc, space, chained, seen)? {
        return Ok(Some(damage));
    }
    match find_loose(alloc, space, seen)? {
        Some(id) => Ok(Some(broken(RELATIONSHIPS, id, CHAIN_RULE))),
        None => Ok(None),
    }
}

/// Decides the third rule.
pub fn check_chains<R: Reads>(alloc: Global, space: &mut R) -> Result<Option<Damage>, SpaceFault>
    requires { AreMarksLow (R.state space.old).records }
    ensures decided { R.tells → IfOk result
        (DecidesRule (R.state space.old).records (R.state space.old).shape 3) }
    ensures read { IsRead R.Reads space.old space.new }
    ensures cause { HasCause (R.faults space.old) (R.faults space.new) result }
{
    let chained = chained_groups(alloc, space)?;
    let ends = 2 * space.meta(RELATIONSHIPS).high as usize;
    let Ok(mut seen) = none_seen(alloc, ends) else {
        return Err(SpaceFault::Memory);
    };
    check_seen(alloc, space, &chained, &mut seen)
}
