use smk_base::{PathText, Text};

/// What a job wants: a path, or a text that is none and so is nothing that could be there.
#[derive(Drop)]
pub enum Want {
    Path(PathText),
    NoPath(Text),
}
