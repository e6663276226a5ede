//! What stands directly in a folder: the names of its keys, cut as bytes and read as text.
ghost use Rattle.std.specs.Prelude.{◌≡◌, ◌++◌, Option, IfOk, OnOk, if◌then◌else◌, string_bytes, map, None, Some, true, false};
ghost use Rattle.std.specs.Option.{option_map};
ghost use Rattle.smk_world.specs.World.{IsRising};
ghost use Rattle.smk_world.specs.Calls.{is_name};
ghost use Rattle.smk_world.specs.declared.event.Node.TheVariants.{Directory};
ghost use Rattle.smk_world_nodes.specs.Nodes.{keys_under, name_under, is_text, is_folder_there, entry_of, is_strange, names_of, strange_of, listing_at, node_at as at};

use crate::Nodes;
use smk_base::{List, OutOfMemory, Place, Text};
use smk_world::{Listing, Name, Node};
use std::alloc::Global;

fn is_name(name: &[u8]) -> bool
    ensures { result ≡ is_name name.now }
{
    !name.is_empty() && !name.contains(&b'/')
}

// The name of the key, where it is directly in the folder.
fn name_in<'a>(key: &'a [u8], folder: &[u8]) -> Option<&'a [u8]>
    ensures { option_map (λ n. n.now) result ≡ name_under key.now folder.now }
{
    let mut rest = key;
    let mut front = folder;
    while let [f, more @ ..] = front {
        match rest {
            [b, after @ ..] if *b == *f => {
                rest = after;
                front = more;
            }
            _ => return None,
        }
    }
    match rest {
        [b'/', name @ ..] if is_name(name) => Some(name),
        _ => None,
    }
}

// The name as a text of one line.
fn text_in(alloc: Global, name: &[u8]) -> Result<Option<Text>, OutOfMemory>
    ensures { IfOk result (λ text. text ≡ (if is_text name.now then Some name.now else None)) }
{
    match str::from_utf8(name) {
        Ok(text) => {
            if name.contains(&b'\n') {
                Ok(None)
            } else {
                Ok(Some(Text::of(alloc, text)?))
            }
        }
        Err(_) => Ok(None),
    }
}

fn is_folder(nodes: &Nodes, p: &str) -> bool
    ensures { result ≡ is_folder_there (at nodes.now p.now) }
{
    matches!(nodes.get(p), Some(Node::Directory))
}

// Adds the name, and answers whether it is strange.
fn push_entry(
    alloc: Global,
    names: &mut List<Name>,
    name: Option<&[u8]>,
    folder: bool,
) -> Result<bool, OutOfMemory>
    ensures names { OnOk result (names.new ≡ names.old ++ entry_of folder (option_map (λ n. n.now) name.entry)) }
    ensures strange { IfOk result (λ strange. strange ≡ is_strange (option_map (λ n. n.now) name.entry)) }
{
    match name {
        None => Ok(false),
        Some(name) => match text_in(alloc, name)? {
            None => Ok(true),
            Some(name) => {
                names.push(Name { name, folder })?;
                Ok(false)
            }
        },
    }
}

// The listing of these keys.
fn list_keys(alloc: Global, nodes: &Nodes, p: &str, keys: &[String]) -> Result<Listing, OutOfMemory>
    ensures { IfOk result (λ listing. listing ≡ record { there = true; names = names_of nodes.now p.now (map string_bytes keys.now); strange = strange_of p.now (map string_bytes keys.now) }) }
{
    let mut names = List::new(alloc);
    let mut strange = false;
    for key in keys {
        let folder = is_folder(nodes, key.as_str());
        let name = name_in(key.as_bytes(), p.as_bytes());
        let other = push_entry(alloc, &mut names, name, folder)?;
        strange = strange || other;
    }
    Ok(Listing {
        there: true,
        names,
        strange,
    })
}

/// What stands directly in the folder.
pub fn listing_of(alloc: Global, nodes: &Nodes, p: &Place) -> Result<Listing, OutOfMemory>
    ensures listing { IfOk result (λ listing. listing ≡ listing_at (at nodes.now p.now) nodes.now p.now) }
    ensures rising { IfOk result (λ listing. at nodes.now p.now ≡ Some Directory → IsRising (keys_under nodes.now p.now)) }
{
    match nodes.get(p.as_str()) {
        Some(Node::Directory) => {
            let keys = nodes.listed_under(alloc, p.as_str())?;
            list_keys(alloc, nodes, p.as_str(), &keys)
        }
        _ => Ok(Listing {
            there: false,
            names: List::new(alloc),
            strange: false,
        }),
    }
}
