use smk_base::{Amount, List, PathText};

/// Which jobs are run whatever their records say.
#[derive(Clone, Copy, PartialEq, Eq)]
pub enum Force {
    No,
    /// Those that make a target.
    Targets,
    All,
}

/// What a run is to do.
#[derive(Drop)]
pub struct Settings {
    pub targets: List<PathText>,
    pub cores: u64,
    pub bounds: List<Amount>,
    pub keep_going: bool,
    pub rerun_incomplete: bool,
    pub force: Force,
}
