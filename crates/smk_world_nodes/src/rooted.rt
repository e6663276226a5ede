//! Whether a place has a name and stands in folders.
ghost use Rattle.std.specs.Prelude.{◌≡◌, ℕ, List as Items, Some, true};
ghost use Rattle.smk_base.specs.Path.{is_under};
ghost use Rattle.smk_world.specs.declared.event.Node.TheVariants.{Directory};
ghost use Rattle.smk_world.specs.Folders.{has_names, CanHold};
ghost use Rattle.smk_world_nodes.specs.Nodes.{node_at, is_folder_there};

use crate::Nodes;
use smk_world::Node;

// Whether a folder is there.
fn is_folder(nodes: &Nodes, p: &str) -> bool
    ensures { result ≡ is_folder_there (node_at nodes.now p.now) }
{
    match nodes.get(p) {
        Some(Node::Directory) => true,
        _ => false,
    }
}

// Whether all above the place are folders.
fn has_folders(nodes: &Nodes, p: &str) -> bool
    ensures { result ≡ true → (f : Items ℕ) → is_under p.now f ≡ true → node_at nodes.now f ≡ Some Directory }
{
    for (i, b) in p.as_bytes().iter().enumerate() {
        if *b == b'/' {
            if !is_folder(nodes, &p[..i]) {
                return false;
            }
        }
    }
    true
}

// Whether no part of the place is empty.
fn has_names(p: &[u8]) -> bool
    ensures { result ≡ has_names p.now }
{
    let mut begins = true;
    for b in p {
        if *b == b'/' {
            if begins {
                return false;
            }
            begins = true;
        } else {
            begins = false;
        }
    }
    !begins
}

/// Whether the place has a name and stands in folders. The contract tells what follows from true.
pub(crate) fn can_hold(nodes: &Nodes, p: &str) -> bool
    ensures { result ≡ true → CanHold (node_at nodes.now) p.now }
{
    has_names(p.as_bytes()) && has_folders(nodes, p)
}
