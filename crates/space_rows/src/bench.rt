use crate::call::Call;
use crate::counted::Counted;
use crate::error::RowError;
use crate::paths::no_answer;
use crate::spaces::new_space;
use crate::spelling::{done, spell};
use crate::write_sets::Sets;
use crate::{
    chains, edges_met, forms, graphs, groups, identifiers, indexes, names, nodes, paths,
    properties, records, relationships, runs, spaces, write_sets,
};
use name_store::Names;
use path_find::Answer;
use rec_bytes::{MapSpace, Rec, Shape, WriteSet};
use std::alloc::{AllocError, Global};
use std::mem::swap;
use store_check::check;
use traversal_run::Run;

/// The shape of the space that a title makes.
const SHAPE: Shape = Shape {
    threshold: 50,
    limit: 64,
};

/// A space with its names, and other names.
#[derive(Drop)]
struct Store {
    counted: Box<Counted>,
    names: Box<Names>,
    others: Box<Names>,
}

/// A record, two sets of records, a run once one has begun, and an answer of a search.
#[derive(Drop)]
struct Tools {
    rec: Box<Rec>,
    sets: Box<Sets>,
    run: Option<Box<Run>>,
    found: Box<Answer>,
}

/// What the calls so far have left.
#[derive(Drop)]
pub(crate) struct Bench {
    alloc: Global,
    store: Store,
    tools: Tools,
}

impl Store {
    fn new(alloc: Global) -> Result<Store, AllocError> {
        let mut counted = first_space(alloc)?;
        let names = names_of(alloc, &mut counted.space)?;
        let others = names_of(alloc, &mut counted.space)?;
        Ok(Store {
            counted,
            names,
            others,
        })
    }
}

impl Tools {
    fn new(alloc: Global) -> Result<Tools, AllocError> {
        let rec = Box::new(alloc, Rec::ZEROS)?;
        let sets = no_sets(alloc)?;
        let found = no_answer(alloc)?;
        Ok(Tools {
            rec,
            sets,
            run: None,
            found,
        })
    }
}

impl Bench {
    /// A new store, and nothing else.
    pub(crate) fn new(alloc: Global) -> Result<Box<Bench>, AllocError> {
        let store = Store::new(alloc)?;
        let tools = Tools::new(alloc)?;
        let bench = Box::new(
            alloc,
            Bench {
                alloc,
                store,
                tools,
            },
        )?;
        Ok(bench)
    }

    /// Makes a call, and spells what it answers.
    pub(crate) fn answer(&mut self, call: &Call) -> Result<String, RowError> {
        let alloc = self.alloc;
        let space = &mut self.store.counted.space;
        match call.layer {
            b"space" => spaces::answer(alloc, space, call),
            b"id_freelist" => identifiers::answer(alloc, space, call),
            b"node_store" => nodes::answer(alloc, space, call),
            b"rel_store" => relationships::answer(alloc, space, call),
            b"chain_edit" => chains::answer(alloc, space, call),
            b"group_store" => groups::answer(alloc, space, call),
            b"prop_store" => properties::answer(alloc, space, call),
            b"prop_index" => indexes::answer(alloc, space, call),
            b"store_check" => spell(alloc, &check(alloc, space)),
            _ => self.answer_by_more(call),
        }
    }

    /// Makes a call that is given more than the space, or other things.
    fn answer_by_more(&mut self, call: &Call) -> Result<String, RowError> {
        let alloc = self.alloc;
        let Store { counted, names, .. } = &mut self.store;
        let Tools {
            rec,
            sets,
            run,
            found,
        } = &mut self.tools;
        match call.layer {
            b"expand" => edges_met::answer(alloc, counted, call),
            b"path_find" => paths::answer(alloc, &mut counted.space, found, call),
            b"name_store" => names::answer(alloc, &mut counted.space, names, call),
            b"graph_ops" => graphs::answer(alloc, &mut counted.space, names, call),
            b"traversal_run" => runs::answer(alloc, run, counted, names, call),
            b"record" => records::answer(alloc, rec, call),
            b"form" => forms::answer(alloc, rec, call),
            b"write_set" => write_sets::answer(alloc, sets, call),
            b"store" => begin_store(alloc, &mut self.store, call),
            _ => Err(RowError::Malformed),
        }
    }
}

/// A new store with its names, or the same store with the names that were put aside.
fn begin_store(alloc: Global, store: &mut Store, call: &Call) -> Result<String, RowError> {
    match (call.verb, call.count()) {
        (b"new", 2) => renew(alloc, store, call)?,
        (b"other_names", 0) => swap(&mut store.names, &mut store.others),
        _ => return Err(RowError::Malformed),
    }
    done(alloc)
}

fn renew(alloc: Global, store: &mut Store, call: &Call) -> Result<(), RowError> {
    store.counted.space = new_space(alloc, call)?;
    store.names = names_of(alloc, &mut store.counted.space)?;
    Ok(())
}

fn first_space(alloc: Global) -> Result<Box<Counted>, AllocError> {
    let space = MapSpace::new(alloc, SHAPE)?;
    let counted = Box::new(alloc, Counted { space, reads: 0 })?;
    Ok(counted)
}

/// The names of a new space.
fn names_of(alloc: Global, space: &mut MapSpace) -> Result<Box<Names>, AllocError> {
    let Ok(names) = name_store::load(alloc, space) else {
        return Err(AllocError);
    };
    let names = Box::new(alloc, names)?;
    Ok(names)
}

fn no_sets(alloc: Global) -> Result<Box<Sets>, AllocError> {
    let sets = Box::new(
        alloc,
        Sets {
            set: WriteSet::new(alloc),
            other: WriteSet::new(alloc),
        },
    )?;
    Ok(sets)
}
