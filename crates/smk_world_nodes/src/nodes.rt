//! The nodes that read now, by place, in byte order.
ghost use Rattle.std.specs.Prelude.{◌≡◌, ◌++◌, ℕ, List as Items, Option, IfOk, OnOk, OnErr, if◌then◌else◌, bytes_eq, string_bytes, map, None, Some, true, false};
ghost use Rattle.std.specs.Option.{option_map};
ghost use Rattle.smk_base.specs.Path.{is_under, is_at_or_under};
ghost use Rattle.smk_world.specs.World.{IsRising, is_within};
ghost use Rattle.smk_world.specs.Folders.{AreInFolders};
ghost use Rattle.smk_world_nodes.specs.Nodes.{is_listed, keys_under};

use crate::rooted::can_hold;
use smk_base::{OutOfMemory, PathText};
use smk_world::Node;
use std::alloc::{AllocError, Global};
use std::collections::BTreeMap;

/// The nodes that read now.
#[derive(Drop)]
pub struct Nodes {
    nodes: BTreeMap<String, Node>,
}

impl Nodes {
    ghost use Rattle.smk_world_nodes.specs.Nodes.{node_at};

    /// No nodes.
    pub fn new(alloc: Global) -> Self
        ensures { (q : Items ℕ) → node_at result q ≡ None }
    {
        Nodes {
            nodes: BTreeMap::new(alloc),
        }
    }

    /// What stands at the place.
    pub fn get(&self, p: &str) -> Option<&Node>
        ensures { option_map (λ n. n.now) result ≡ node_at self.now p.now }
    {
        self.nodes.get(p)
    }

    /// Puts the node there, in place of what stood there.
    pub fn set(&mut self, alloc: Global, p: &str, node: Node) -> Result<(), OutOfMemory>
        ensures ok { OnOk result ((q : Items ℕ) → node_at self.new q ≡ (if bytes_eq q p.now then Some node else node_at self.old q)) }
        ensures err { OnErr result ((q : Items ℕ) → node_at self.new q ≡ node_at self.old q) }
    {
        let place = String::from_str(alloc, p)?;
        self.nodes.insert(place, node)?;
        Ok(())
    }

    /// Removes one node.
    pub fn drop_one(&mut self, p: &str)
        ensures { (q : Items ℕ) → node_at self.new q ≡ (if bytes_eq q p.now then None else node_at self.old q) }
    {
        self.nodes.remove(p);
    }

    /// Removes the nodes at these places.
    pub fn drop_all(&mut self, places: &[String])
        ensures { (q : Items ℕ) → node_at self.new q ≡ (if is_listed q places.now then None else node_at self.old q) }
    {
        for place in places {
            self.drop_one(place.as_str());
        }
    }

    /// The places under the folder that have a node, in byte order.
    pub fn listed_under(&self, alloc: Global, p: &str) -> Result<Vec<String>, OutOfMemory>
        ensures under { IfOk result (λ keys. (q : Items ℕ) → is_listed q keys.items ≡ true → is_under q p.now ≡ true) }
        ensures all { IfOk result (λ keys. (q : Items ℕ) → is_under q p.now ≡ true → is_listed q keys.items ≡ false → node_at self.now q ≡ None) }
        ensures exact { IfOk result (λ keys. map string_bytes keys.items ≡ keys_under self.now p.now) }
        ensures rising { IfOk result (λ keys. IsRising (keys_under self.now p.now)) }
    {
        let low = with_end(alloc, p, "/")?;
        let high = with_end(alloc, p, "0")?;
        let mut keys = Vec::new(alloc);
        for (key, _) in self.nodes.range(low..high) {
            keys.push(key.clone()?)?;
        }
        Ok(keys)
    }

    /// Removes what stands at the place and under it.
    pub fn remove_tree(&mut self, alloc: Global, p: &str) -> Result<(), OutOfMemory>
        ensures { OnOk result ((q : Items ℕ) → node_at self.new q ≡ (if is_at_or_under q p.now then None else node_at self.old q)) }
    {
        let keys = self.listed_under(alloc, p)?;
        self.drop_all(keys.as_slice());
        self.drop_one(p);
        Ok(())
    }

    /// Removes what stands at the paths and under them.
    pub fn remove_trees(&mut self, alloc: Global, paths: &[PathText]) -> Result<(), OutOfMemory>
        ensures { OnOk result ((q : Items ℕ) → node_at self.new q ≡ (if is_within q paths.now then None else node_at self.old q)) }
    {
        for path in paths {
            self.remove_tree(alloc, path.as_str())?;
        }
        Ok(())
    }

    /// Whether each node has a name and stands in folders. The contract tells what follows from true.
    pub fn are_in_folders(&self) -> bool
        ensures { result ≡ true → AreInFolders (node_at self.now) }
    {
        for (key, _) in self.nodes.iter() {
            if !can_hold(self, key.as_str()) {
                return false;
            }
        }
        true
    }
}

fn with_end(alloc: Global, p: &str, end: &str) -> Result<String, AllocError>
    ensures { IfOk result (λ text. string_bytes text ≡ p.now ++ end.now) }
{
    let mut text = String::from_str(alloc, p)?;
    text.push_str(end)?;
    Ok(text)
}
