ghost use Rattle.std.specs.Prelude.{◌≡◌, ◌≤◌, ◌+◌, false, true, cond, None, length};
ghost use Rattle.std.specs.Prelude.{IfOk, IfErr, OnOk};
ghost use Rattle.plain_graph.specs.declared.query.Source.{Source as SourceRow};
ghost use Rattle.gremlin_parse.specs.Drafts.{IsDraft, PutsStep, ReadsStep, StopsInStep};
ghost use Rattle.gremlin_parse.specs.Drafts.{draft_place, draft_stage, draft_steps, drafted};
ghost use Rattle.gremlin_parse.specs.Queries.{Steps, is_change, is_order, query_from, shown};
ghost use Rattle.gremlin_parse.specs.Stages.{added_count, are_elements, first_items, items_from};
ghost use Rattle.gremlin_parse.specs.Stages.{name_count};
ghost use Rattle.gremlin_parse.specs.declared.step_word.StepWord.TheVariants as words;

use crate::stage::{
    Items, Stage, added_count, are_elements, first_items, is_by, items_after, mapped, maps_count,
};
use crate::step::{read_arguments, read_names};
use crate::step_word::StepWord;
use crate::stop::Stop;
use plain_graph::{Query, Source, Step, StepList, Texts};
use std::alloc::Global;

/// The steps of a query so far.
#[derive(Drop)]
pub(crate) struct Draft {
    steps: Vec<Step>,
    /// The keys of the maps that are asked for.
    maps: Option<Texts>,
    /// What the steps give.
    items: Items,
    /// How many there are, with those of bodies.
    count: usize,
    /// Whether the last one is an order, after which a `by` may stand.
    pub(crate) is_ordered: bool,
}

impl Draft {
    /// No steps after the source.
    pub(crate) fn new(alloc: Global, source: &Source) -> Draft
        ensures is { IsDraft source.now result }
        ensures place { draft_place source.now result ≡ Steps (query_from source.now) }
    {
        Draft {
            steps: Vec::new(alloc),
            maps: None,
            items: first_items(source),
            count: 0,
            is_ordered: false,
        }
    }

    /// What comes to the next step.
    pub(crate) fn stage(&self) -> Stage
        requires { self.now.count ≤ 32 }
        ensures { result ≡ draft_stage self.now }
    {
        Stage {
            items: mapped(&self.maps, self.items),
            steps: self.count + maps_count(&self.maps),
        }
    }

    /// Reads the arguments of the word, and gives the bytes after the closing parenthesis.
    ///
    /// # Errors
    /// A fault of syntax if no step of the word goes on so, another fault of its names and values,
    /// or `Memory`.
    pub(crate) fn read<'a>(
        &mut self,
        alloc: Global,
        word: StepWord,
        bytes: &'a [u8],
    ) -> Result<&'a [u8], Stop>
        requires few { draft_steps self.old + name_count word ≤ 32 }
        requires reads { is_change word ≡ false }
        requires by { word ≡ words.By → self.old.is_ordered ≡ true }
        ensures ok { IfOk result (λ rest. (source : SourceRow) → IsDraft source self.old →
            ReadsStep source self.old word bytes.now self.new rest.now) }
        ensures within { IfOk result (λ rest. length rest.now ≤ length bytes.now) }
        ensures err { IfErr result (λ stop. (source : SourceRow) → IsDraft source self.old →
            StopsInStep source self.old word bytes.now stop) }
    {
        if let StepWord::ElementMap = word {
            return self.read_maps(alloc, bytes);
        }
        let (step, rest) = read_arguments(alloc, self.stage(), word, bytes)?;
        self.put(word, step)?;
        Ok(rest)
    }

    /// Reads the keys of the maps, and gives the bytes after the closing parenthesis.
    fn read_maps<'a>(&mut self, alloc: Global, bytes: &'a [u8]) -> Result<&'a [u8], Stop>
        requires { self.old.count + 1 ≤ 32 }
        ensures ok { IfOk result (λ rest. (source : SourceRow) → IsDraft source self.old →
            ReadsStep source self.old words.ElementMap bytes.now self.new rest.now) }
        ensures within { IfOk result (λ rest. length rest.now ≤ length bytes.now) }
        ensures err { IfErr result (λ stop. (source : SourceRow) → IsDraft source self.old →
            StopsInStep source self.old words.ElementMap bytes.now stop) }
    {
        let (keys, rest) = read_names(alloc, false, bytes)?;
        self.maps = Some(keys);
        self.is_ordered = false;
        Ok(rest)
    }

    /// Puts the step after the others, or the order of a `by` in the place of the last one.
    fn put(&mut self, word: StepWord, step: Step) -> Result<(), Stop>
        requires { self.old.count + added_count word step ≤ 32 }
        ensures ok { OnOk result (PutsStep self.old word step self.new) }
        ensures err { IfErr result (λ stop. stop ≡ Stop.Memory) }
    {
        self.items = items_after(self.items, &step);
        self.count += added_count(word, &step);
        self.is_ordered = is_order(word);
        if is_by(word) {
            self.steps.pop();
        }
        self.steps.push(step)?;
        Ok(())
    }

    /// The query of the steps: maps are shown of elements, and of values none.
    pub(crate) fn query(self, source: Source) -> Query
        requires { self.items ≡ items_from (first_items source) self.steps.items }
        ensures { result ≡ shown (drafted source self) }
    {
        let Draft {
            steps,
            maps,
            items,
            ..
        } = self;
        Query {
            source,
            steps: StepList::new(steps),
            maps: shown_maps(items, maps),
        }
    }

    /// The query whose elements are changed.
    pub(crate) fn reading(self, source: Source) -> Query
        ensures { result ≡ drafted source self }
    {
        let Draft { steps, maps, .. } = self;
        Query {
            source,
            steps: StepList::new(steps),
            maps,
        }
    }
}

/// The keys of maps where elements are shown, and none where values are.
fn shown_maps(items: Items, maps: Option<Texts>) -> Option<Texts>
    ensures { result ≡ cond (are_elements items) maps None }
{
    if are_elements(items) { maps } else { None }
}

/// Whether it is an order, after which a `by` may stand.
fn is_order(word: StepWord) -> bool
    ensures { result ≡ is_order word }
{
    matches!(word, StepWord::Order)
}
