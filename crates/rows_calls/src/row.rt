//! A run that is to be stopped, or of which a call is to fail.

/// What is changed by hand after an earlier run.
#[derive(Clone, Copy)]
pub enum Change {
    /// There is no earlier run.
    Nothing,
    /// The workflow file is this one then.
    Workflow(&'static str),
    /// The file holds this text then.
    File(&'static str, &'static str),
}

/// A run.
#[derive(Clone, Copy)]
pub struct Row {
    pub workflow: &'static str,
    /// The sources, with what they hold.
    pub files: &'static [(&'static str, &'static str)],
    pub change: Change,
    pub words: &'static [&'static str],
    /// The targets, with what they hold in the end.
    pub wanted: &'static [(&'static str, &'static str)],
}
