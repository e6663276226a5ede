use smk_base::Text;
use smk_pattern::Binding;

/// The rule of the first candidate, and its first want that isn't available.
#[derive(Drop)]
pub struct Lack {
    pub rule: u32,
    pub wanted: Text,
}

/// What makes a path, with the job as its rule and a value for each of its wildcards.
#[derive(Drop)]
pub enum Chosen {
    Source,
    Make(Making),
    /// Nothing makes it; where it has a candidate, that lacks something.
    Nothing(Option<Lack>),
    /// The first two of its viable candidates, by their rules, none of which is preferred.
    Ambiguous(u32, u32),
}

/// A rule, by its place in the workflow, and a value for each of its wildcards, by name.
#[derive(Drop)]
pub struct Making {
    pub rule: u32,
    pub binding: Binding,
}
