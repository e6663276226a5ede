//! Which records are valid.

ghost use Rattle.std.specs.Prelude.{◌≡◌, ◌<◌, ◌≤◌, ◌==◌, ◌&&◌, ◌∷◌, ◌++◌, [], true, length, drop, map, filter, codes, MatchOption, IsTrue, if◌then◌else◌};
ghost use Rattle.std.specs.Cmp.Lexicographic.{slice_cmp};
ghost use Rattle.std.specs.List.{list_all, flat_map};
ghost use Rattle.std.specs.Ordering.{nat_cmp};
ghost use Rattle.smk_base.specs.Path.{is_path};
ghost use Rattle.smk_world.specs.World.{is_named, in_paths, out_paths, folders_above};
ghost use Rattle.smk_world.specs.Trees.{among, folders_of, is_path_text, are_members, is_folder_kind};
ghost use Rattle.smk_record.specs.Records.{is_valid, is_earlier, is_format, is_in_format, are_rising, is_member_folder, are_valid_members, are_none};

use crate::record::{Member, Stamp};
use smk_base::{List, Pair, PathText};
use smk_world::{Item, Kind, Out, OutItem, Recipe};
use std::cmp::Ordering;

// The stamps that are left after one for each path; None where there are too few.
fn after_paths<'a>(paths: &[PathText], stamps: &'a [Stamp]) -> Option<&'a [Stamp]>
    ensures { MatchOption result (length stamps.now < length paths.now)
        (λ rest. (rest.now ≡ drop (length paths.now) stamps.now) × (length paths.now ≤ length stamps.now) × (list_all is_path_text paths.now ≡ true)) }
{
    let mut rest = stamps;
    for path in paths {
        // The call tells that the text is a path's.
        let _text = path.as_str();
        let (_, more) = rest.split_first()?;
        rest = more;
    }
    Some(rest)
}

// Whether there is one stamp for each path of the inputs.
fn has_each_stamp(inputs: &[Item], stamps: &[Stamp]) -> bool
    ensures { result ≡ ((length stamps.now == length (flat_map (λ item. item.paths) inputs.now)) && list_all is_path_text (flat_map (λ item. item.paths) inputs.now)) }
{
    let mut rest = stamps;
    for item in inputs {
        match after_paths(item.paths.as_slice(), rest) {
            Some(more) => rest = more,
            None => return false,
        }
    }
    rest.is_empty()
}

// Whether the path is one of these outputs.
fn is_output(outs: &[Out], path: &str) -> bool
    ensures value { result ≡ is_named path.now (map (λ out. out.path) outs.now) }
    ensures paths { list_all is_path_text (map (λ out. out.path) outs.now) ≡ true }
{
    let mut found = false;
    for out in outs {
        found |= path == out.path.as_str();
    }
    found
}

// Whether the path is one of the outputs.
fn has_output(outputs: &[OutItem], path: &str) -> bool
    ensures value { result ≡ is_named path.now (flat_map (λ item. map (λ out. out.path) item.outs) outputs.now) }
    ensures paths { list_all is_path_text (flat_map (λ item. map (λ out. out.path) item.outs) outputs.now) ≡ true }
{
    let mut found = false;
    for item in outputs {
        found |= is_output(item.outs.as_slice(), path);
    }
    found
}

// Whether the path is one of these directory outputs.
fn is_directory(outs: &[Out], path: &str) -> bool
    ensures { result ≡ is_named path.now (map (λ out. out.path) (filter (λ out. is_folder_kind out.kind) outs.now)) }
{
    for out in outs {
        if out.kind == Kind::Folder && path == out.path.as_str() {
            return true;
        }
    }
    false
}

// Whether the path is one of the directory outputs.
fn has_directory(outputs: &[OutItem], path: &str) -> bool
    ensures { result ≡ is_named path.now (map (λ out. out.path) (filter (λ out. is_folder_kind out.kind) (flat_map (λ item. item.outs) outputs.now))) }
{
    for item in outputs {
        if is_directory(item.outs.as_slice(), path) {
            return true;
        }
    }
    false
}

// Whether each product stamp is below the serial.
fn are_earlier(made: u64, stamps: &[Stamp]) -> bool
    ensures { result ≡ list_all (is_earlier made) stamps.now }
{
    for stamp in stamps {
        match stamp {
            Stamp::Made(serial) if *serial >= made => return false,
            _ => {}
        }
    }
    true
}

// Whether a record of the format may have the stamp.
fn is_in_format(format: u8, stamp: &Stamp) -> bool
    ensures { result ≡ is_in_format format stamp.now }
{
    match stamp {
        Stamp::Sum(..) => format == 2,
        _ => true,
    }
}

// Whether a record of the format may have the stamps.
fn are_in_format(format: u8, stamps: &[Stamp]) -> bool
    ensures { result ≡ list_all (is_in_format format) stamps.now }
{
    for stamp in stamps {
        if !is_in_format(format, stamp) {
            return false;
        }
    }
    true
}

// Whether records of the format are read.
fn is_format(format: u8) -> bool
    ensures { result ≡ is_format format }
{
    format == 1 || format == 2
}

// Whether the names rise in byte order.
fn wildcards_rise(wildcards: &[Pair]) -> bool
    ensures { result ≡ are_rising (map (λ w. w.name) wildcards.now) }
{
    let mut rest = wildcards;
    while let [first, more @ ..] = rest {
        if let [second, ..] = more {
            match first
                .name
                .as_str()
                .as_bytes()
                .cmp(second.name.as_str().as_bytes())
            {
                Ordering::Less => {}
                _ => return false,
            }
        }
        rest = more;
    }
    true
}

// Whether the names rise in byte order.
fn members_rise(members: &[Member]) -> bool
    ensures { result ≡ are_rising (map (λ m. m.name) members.now) }
{
    let mut rest = members;
    while let [first, more @ ..] = rest {
        if let [second, ..] = more {
            match first
                .name
                .as_str()
                .as_bytes()
                .cmp(second.name.as_str().as_bytes())
            {
                Ordering::Less => {}
                _ => return false,
            }
        }
        rest = more;
    }
    true
}

// How the member's name and this one are ordered.
fn order(member: &Member, name: &[u8]) -> Ordering
    ensures { result ≡ slice_cmp nat_cmp member.now.name name.now }
{
    member.name.as_str().as_bytes().cmp(name)
}

// Whether a folder of this name is among the members.
fn is_member_folder(members: &[Member], folder: &[u8]) -> bool
    requires { are_rising (map (λ m. m.name) members.now) ≡ true }
    ensures { result ≡ is_member_folder members.now folder.now }
{
    match members.binary_search_by(|m| order(m, folder)) {
        Ok(i) => members[i].folder,
        Err(_) => false,
    }
}

// Whether each folder above the name is a member.
fn has_folders_above(members: &[Member], name: &[u8]) -> bool
    requires { are_rising (map (λ m. m.name) members.now) ≡ true }
    ensures { result ≡ list_all (is_member_folder members.now) (folders_above name.now) }
{
    for (i, b) in name.iter().enumerate() {
        if *b == b'/' && !is_member_folder(members, &name[..i]) {
            return false;
        }
    }
    true
}

// Whether a directory at the path may have the members.
fn are_valid_members(path: &PathText, members: &[Member]) -> bool
    ensures { result ≡ are_valid_members path.now members.now }
{
    if members.len() > 20_000 || !members_rise(members) {
        return false;
    }
    let room = 1000 - path.as_str().len();
    for member in members {
        let name = member.name.as_str();
        if name.len() >= room || !has_folders_above(members, name.as_bytes()) {
            return false;
        }
    }
    true
}

/// Whether a record of these parts is valid.
pub(crate) fn is_valid(
    format: u8,
    path: &PathText,
    made: u64,
    recipe: &Recipe,
    stamps: &[Stamp],
    members: &[Member],
) -> bool
    ensures { result ≡ is_valid (record { format = format; path = path.now; made = made; recipe = recipe.now; stamps = stamps.now; members = members.now }) }
{
    has_each_stamp(recipe.inputs.as_slice(), stamps)
        && has_output(recipe.outputs.as_slice(), path.as_str())
        && made >= 1
        && are_earlier(made, stamps)
        && wildcards_rise(recipe.wildcards.as_slice())
        && may_have(path, recipe.outputs.as_slice(), members)
        && is_format(format)
        && are_in_format(format, stamps)
}

// Whether the output at the path may have the members.
fn may_have(path: &PathText, outputs: &[OutItem], members: &[Member]) -> bool
    ensures { result ≡ (if is_named path.now (map (λ out. out.path) (filter (λ out. is_folder_kind out.kind) (flat_map (λ item. item.outs) outputs.now))) then are_valid_members path.now members.now else are_none members.now) }
{
    if has_directory(outputs, path.as_str()) {
        are_valid_members(path, members)
    } else {
        members.is_empty()
    }
}
