use smk_base::PathText;

/// How a job ended whose child was waited for and that was closed.
#[derive(Drop)]
pub enum Ending {
    /// With all its outputs good.
    Good,
    /// Its command ended with this status, which isn't 0.
    Status(u32),
    /// Its command ended with status 0, and left no such output.
    NoOutput(PathText),
    /// Its command ended with status 0, and left at this output a folder for a file, or a file for a directory.
    WrongKind(PathText),
    /// Its command ended with status 0, and left in this directory what a record can't tell.
    BadMember(PathText),
}
