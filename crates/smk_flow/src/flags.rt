//! Flags of outputs.

ghost use Rattle.std.specs.Prelude.{◌≡◌};
ghost use Rattle.smk_flow.specs.Flows.{makes_folder};

use crate::rule::{Flag, FlaggedText};

/// Whether the output is flagged as a directory.
pub fn makes_folder(out: &FlaggedText) -> bool
    ensures { result ≡ makes_folder out.now }
{
    for flag in out.flags.as_slice() {
        if *flag == Flag::Folder {
            return true;
        }
    }
    false
}
