use smk_base::List;
use smk_record::Stamp;
use smk_store::Kept;
use smk_world::Recipe;

/// What the reasons of a job are judged by: for each of its outputs what is kept of it and whether it is marked; for each of its
/// inputs the stamp now; and whether it is forced.
#[derive(Drop)]
pub struct JobFacts {
    pub recipe: Recipe,
    pub kept: List<Kept>,
    pub marked: List<bool>,
    pub stamps: List<Option<Stamp>>,
    pub forced: bool,
}
