//! A call of the workspace that failed.

use std::io::Error;

/// What a call does.
#[derive(Clone, Copy, PartialEq, Eq)]
pub enum CallKind {
    /// `Files::stat`
    Look,
    /// `Files::read`
    Read,
    /// `Files::list`
    List,
    /// `Files::write`
    Write,
    /// `Files::create_new`
    Create,
    /// `Files::remove`
    Remove,
    /// `Files::remove` of a lock that another run left
    Unlock,
    /// `Files::make_parents`
    MakeParents,
    /// `Files::settle`
    Settle,
    /// `Files::protect`
    Protect,
    /// `Crew::start`
    Start,
    /// `Crew::wait`
    Wait,
}

impl CallKind {
    /// The call in words. All but those of a wait are followed by a path.
    pub fn words(self) -> &'static str {
        match self {
            CallKind::Look => "look at",
            CallKind::Read => "read",
            CallKind::List => "list",
            CallKind::Write => "write",
            CallKind::Create => "create",
            CallKind::Remove => "remove",
            CallKind::Unlock => "remove the lock before the end of",
            CallKind::MakeParents => "make the folders above",
            CallKind::Settle => "sync",
            CallKind::Protect => "write-protect",
            CallKind::Start => "start the command for",
            CallKind::Wait => "wait for a command",
        }
    }
}

/// A call that failed.
#[derive(Drop)]
pub struct Failure {
    pub call: CallKind,
    /// Where: the path of the call, or the one at which it failed, where that is another. It is empty for a wait, and where
    /// there was no memory for it.
    pub path: String,
    /// Why, in the system's words.
    pub reason: Error,
}
