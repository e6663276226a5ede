use smk_base::{Amount, List, Pair, PathText};
use smk_pattern::Pattern;
use smk_world::Recipe;

/// A rule with a value for each of its wildcards.
#[derive(Drop)]
pub struct Job {
    /// The rule's place in the workflow, from 0.
    pub rule: u32,
    pub recipe: Recipe,
    pub gathers: List<Gather>,
    pub logs: List<PathText>,
    pub threads: u64,
    /// Resources that are counted.
    pub amounts: List<Amount>,
    /// Resources that are texts.
    pub words: List<Pair>,
    pub priority: u64,
    /// The outputs flagged `temp`.
    pub temps: List<PathText>,
    /// The outputs flagged `protected`.
    pub guards: List<PathText>,
}

/// The item of inputs with this number, from 0, is gathered from this directory.
#[derive(Drop)]
pub struct Gather {
    pub item: u64,
    pub folder: PathText,
    pub listed: Pattern,
    pub wanted: Pattern,
}
