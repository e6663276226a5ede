//! Folders that are made above a place.
ghost use Rattle.std.specs.Prelude.{◌≡◌, ℕ, List as Items, None, OnOk, if◌then◌else◌, bytes_eq};
ghost use Rattle.smk_base.specs.Path.{is_under};
ghost use Rattle.smk_world_nodes.specs.Nodes.{node_at, or_folder, is_listed};

use crate::Nodes;
use smk_base::{OutOfMemory, Place};
use smk_world::Node;
use std::alloc::Global;

// Puts a folder where nothing is, and adds the place to those that were made.
fn make_folder(
    alloc: Global,
    nodes: &mut Nodes,
    p: &str,
    made: &mut Vec<String>,
) -> Result<(), OutOfMemory>
    ensures ok { OnOk result ((q : Items ℕ) → node_at nodes.new q ≡ (if bytes_eq q p.now then or_folder (node_at nodes.old q) else node_at nodes.old q)) }
    ensures back { (q : Items ℕ) → (if is_listed q made.new.items then None else node_at nodes.new q) ≡ (if is_listed q made.old.items then None else node_at nodes.old q) }
{
    if nodes.get(p).is_none() {
        made.push(String::from_str(alloc, p)?)?;
        nodes.set(alloc, p, Node::Directory)?;
    }
    Ok(())
}

/// Puts a folder where nothing is, at each place above, and adds those places to the ones that were made:
/// with the nodes at all of these dropped, the others are as they were, after want of memory too.
pub fn make_folders(
    alloc: Global,
    nodes: &mut Nodes,
    p: &Place,
    made: &mut Vec<String>,
) -> Result<(), OutOfMemory>
    ensures ok { OnOk result ((q : Items ℕ) → node_at nodes.new q ≡ (if is_under p.now q then or_folder (node_at nodes.old q) else node_at nodes.old q)) }
    ensures back { (q : Items ℕ) → (if is_listed q made.new.items then None else node_at nodes.new q) ≡ (if is_listed q made.old.items then None else node_at nodes.old q) }
{
    let text = p.as_str();
    for (i, b) in text.as_bytes().iter().enumerate() {
        if *b == b'/' {
            make_folder(alloc, nodes, &text[..i], made)?;
        }
    }
    Ok(())
}
