use smk_base::{Amount, List, Pair};

/// The resources of a rule.
#[derive(Drop)]
pub(crate) struct Resources {
    /// Those that are counted.
    pub(crate) amounts: List<Amount>,
    /// Those that are texts.
    pub(crate) words: List<Pair>,
}
