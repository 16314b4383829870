use name_store::Names;
use std::alloc::Global;

/// What nearly each question asks for beside the space that it reads.
#[derive(Clone, Copy)]
pub(crate) struct Context<'a> {
    /// Where it takes memory.
    pub(crate) alloc: Global,
    /// The names of the graph, and maybe more after them.
    pub(crate) names: &'a Names,
}
