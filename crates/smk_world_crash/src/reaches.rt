//! What the steps reach and name, and the children that they leave running.
ghost use Rattle.std.specs.Prelude.{◌≡◌, ◌++◌, ◌∷◌, ◌||◌, [], IfOk, OnOk, ℕ, List as Items, map, bytes_eq};
ghost use Rattle.smk_base.specs.Path.{is_under};
ghost use Rattle.smk_world.specs.World.{is_named, owned_paths, owned_of, made_folders};
ghost use Rattle.smk_world.specs.Calls.{owned_now};
ghost use Rattle.smk_world_crash.specs.Crash.{reached, reached_by, children_then, all_reached, names_by, all_names};
ghost use Rattle.std.specs.Option.{option_map};

use crate::children::{find, others, outputs};
use smk_base::{Copied, List, OutOfMemory, PathText, Place, Text};
use smk_world::{Call, Change, Child, Event, Recipe};
use smk_world_nodes::Step;
use std::alloc::Global;

// Adds the places of the paths.
fn push_places(
    alloc: Global,
    places: &mut List<Place>,
    paths: &[PathText],
) -> Result<(), OutOfMemory>
    ensures { OnOk result (places.new ≡ places.old ++ paths.now) }
{
    for path in paths {
        places.push(Place::user(alloc, path)?)?;
    }
    Ok(())
}

// Adds what a child of this recipe with these logs owns.
fn push_owned(
    alloc: Global,
    places: &mut List<Place>,
    recipe: &Recipe,
    logs: &List<PathText>,
) -> Result<(), OutOfMemory>
    ensures { OnOk result (places.new ≡ places.old ++ owned_paths recipe.now logs.now) }
{
    let outs = outputs(alloc, recipe)?;
    push_places(alloc, places, outs.as_slice())?;
    push_places(alloc, places, logs.as_slice())
}

// What a child of this recipe with these logs owns.
fn owned(alloc: Global, recipe: &Recipe, logs: &List<PathText>) -> Result<List<Place>, OutOfMemory>
    ensures { IfOk result (λ places. places ≡ owned_paths recipe.now logs.now) }
{
    let mut places = List::new(alloc);
    push_owned(alloc, &mut places, recipe, logs)?;
    Ok(places)
}

// What the child owns, where there is one.
fn owned_by(alloc: Global, child: Option<&Child>) -> Result<List<Place>, OutOfMemory>
    ensures { IfOk result (λ places. places ≡ owned_of (option_map (λ c. c.now) child.entry)) }
{
    match child {
        Some(child) => owned(alloc, &child.recipe, &child.logs),
        None => Ok(List::new(alloc)),
    }
}

/// What the children own.
pub fn owned_by_all(alloc: Global, children: &[Child]) -> Result<List<Place>, OutOfMemory>
    ensures { IfOk result (λ places. places ≡ owned_now children.now) }
{
    let mut places = List::new(alloc);
    let mut rest = children;
    while let [child, more @ ..] = rest {
        push_owned(alloc, &mut places, &child.recipe, &child.logs)?;
        rest = more;
    }
    Ok(places)
}

fn reached_by(alloc: Global, call: &Call, children: &[Child]) -> Result<List<Place>, OutOfMemory>
    ensures { IfOk result (λ places. places ≡ reached_by call.now children.now) }
{
    match call {
        Call::Started(recipe, logs, _, Ok(_)) => owned(alloc, recipe, logs),
        Call::Started(_, _, _, Err(_)) => Ok(List::new(alloc)),
        Call::Waited(Ok(ended)) => owned_by(alloc, find(children, ended.number)),
        Call::Waited(Err(_)) => Ok(List::new(alloc)),
        Call::Looked(_, _) => Ok(List::new(alloc)),
        Call::ReadFile(_, _, _) => Ok(List::new(alloc)),
        Call::ReadFolder(_, _) => Ok(List::new(alloc)),
        Call::Written(_, _, _) => Ok(List::new(alloc)),
        Call::Created(_, _) => Ok(List::new(alloc)),
        Call::Removed(_, _) => Ok(List::new(alloc)),
        Call::MadeParents(_, _) => Ok(List::new(alloc)),
        Call::Settled(_, _) => Ok(List::new(alloc)),
        Call::Protected(_, _) => Ok(List::new(alloc)),
    }
}

// What the step takes for its child or gives back, where these children run before it.
fn reached(alloc: Global, step: &Step, children: &[Child]) -> Result<List<Place>, OutOfMemory>
    ensures { IfOk result (λ places. places ≡ reached step.now children.now) }
{
    match step {
        Step::Happened(event) => reached_by(alloc, &event.call, children),
        Step::Put(_, _) => Ok(List::new(alloc)),
        Step::Gone(_) => Ok(List::new(alloc)),
    }
}

// Adds the child.
fn push_child(
    alloc: Global,
    children: &mut List<Child>,
    number: u64,
    recipe: &Recipe,
    logs: &List<PathText>,
) -> Result<(), OutOfMemory>
    ensures { OnOk result (children.new ≡ children.old ++ record { number = number; recipe = recipe.now; logs = logs.now } ∷ []) }
{
    children.push(Child {
        number,
        recipe: recipe.copied(alloc)?,
        logs: logs.copied(alloc)?,
    })
}

// The children after the step.
fn children_after(
    alloc: Global,
    step: &Step,
    mut children: List<Child>,
) -> Result<List<Child>, OutOfMemory>
    ensures { IfOk result (λ later. later ≡ children_then step.now children) }
{
    let Step::Happened(event) = step else {
        return Ok(children);
    };
    match &event.call {
        Call::Started(recipe, logs, _, Ok(number)) => {
            push_child(alloc, &mut children, *number, recipe, logs)?;
            Ok(children)
        }
        Call::Waited(Ok(ended)) => others(alloc, &children, ended.number),
        Call::Started(_, _, _, Err(_)) => Ok(children),
        Call::Waited(Err(_)) => Ok(children),
        Call::Looked(_, _) => Ok(children),
        Call::ReadFile(_, _, _) => Ok(children),
        Call::ReadFolder(_, _) => Ok(children),
        Call::Written(_, _, _) => Ok(children),
        Call::Created(_, _) => Ok(children),
        Call::Removed(_, _) => Ok(children),
        Call::MadeParents(_, _) => Ok(children),
        Call::Settled(_, _) => Ok(children),
        Call::Protected(_, _) => Ok(children),
    }
}

/// What each of the steps reaches, where no child runs before them.
pub fn all_reached(alloc: Global, steps: &[Step]) -> Result<List<List<Place>>, OutOfMemory>
    ensures { IfOk result (λ reaches. reaches ≡ all_reached [] steps.now) }
{
    let mut reaches = List::new(alloc);
    let mut children = List::new(alloc);
    let mut rest = steps;
    while let [step, more @ ..] = rest {
        reaches.push(reached(alloc, step, children.as_slice())?)?;
        children = children_after(alloc, step, children)?;
        rest = more;
    }
    Ok(reaches)
}

// Whether the text is one of the names.
pub fn is_among(names: &[Text], text: &str) -> bool
    ensures { result ≡ is_named text.now names.now }
{
    let mut rest = names;
    while let [name, more @ ..] = rest {
        if text == name.as_str() {
            return true;
        }
        rest = more;
    }
    false
}

// Adds the name, unless it is there.
fn add_name(alloc: Global, names: &mut List<Text>, text: &str) -> Result<(), OutOfMemory>
    ensures { OnOk result ((q : Items ℕ) → is_named q names.new ≡ (is_named q names.old || bytes_eq q text.now)) }
{
    if is_among(names.as_slice(), text) {
        return Ok(());
    }
    names.push(Text::of(alloc, text)?)?;
    Ok(())
}

// Adds the folders above the text.
fn add_folders(alloc: Global, names: &mut List<Text>, text: &str) -> Result<(), OutOfMemory>
    ensures { OnOk result ((q : Items ℕ) → is_named q names.new ≡ (is_named q names.old || is_under text.now q)) }
{
    for (i, b) in text.as_bytes().iter().enumerate() {
        if *b == b'/' {
            add_name(alloc, names, &text[..i])?;
        }
    }
    Ok(())
}

// Adds the places of the changes.
#[tactic(auto, using(crate::proofs::Gathered::named_goes_on))]
fn add_left(alloc: Global, names: &mut List<Text>, left: &[Change]) -> Result<(), OutOfMemory>
    ensures { OnOk result ((q : Items ℕ) → is_named q names.new ≡ (is_named q names.old || is_named q (map (λ c. c.place) left.now))) }
{
    let mut rest = left;
    while let [change, more @ ..] = rest {
        add_name(alloc, names, change.place.as_str())?;
        rest = more;
    }
    Ok(())
}

/// Adds the places.
#[tactic(auto, using(crate::proofs::Gathered::named_goes_on))]
fn add_places(alloc: Global, names: &mut List<Text>, places: &[Place]) -> Result<(), OutOfMemory>
    ensures { OnOk result ((q : Items ℕ) → is_named q names.new ≡ (is_named q names.old || is_named q places.now)) }
{
    let mut rest = places;
    while let [place, more @ ..] = rest {
        add_name(alloc, names, place.as_str())?;
        rest = more;
    }
    Ok(())
}

// Adds the folders that the call may have made.
#[tactic(auto, using(crate::proofs::Gathered::above_added))]
fn add_made(alloc: Global, names: &mut List<Text>, call: &Call) -> Result<(), OutOfMemory>
    ensures { OnOk result ((q : Items ℕ) → is_named q names.new ≡ (is_named q names.old || is_named q (made_folders call.now))) }
{
    match call {
        Call::MadeParents(p, _) => {
            add_folders(alloc, names, p.as_str())?;
            Ok(())
        }
        Call::Looked(_, _) => Ok(()),
        Call::ReadFile(_, _, _) => Ok(()),
        Call::ReadFolder(_, _) => Ok(()),
        Call::Written(_, _, _) => Ok(()),
        Call::Created(_, _) => Ok(()),
        Call::Removed(_, _) => Ok(()),
        Call::Settled(_, _) => Ok(()),
        Call::Protected(_, _) => Ok(()),
        Call::Started(_, _, _, _) => Ok(()),
        Call::Waited(_) => Ok(()),
    }
}

// Adds the names of the event.
#[tactic(auto, using(crate::proofs::Gathered::lists_added))]
fn add_event(alloc: Global, names: &mut List<Text>, event: &Event) -> Result<(), OutOfMemory>
    ensures { OnOk result ((q : Items ℕ) → is_named q names.new ≡ (is_named q names.old || is_named q (map (λ c. c.place) event.now.left ++ made_folders event.now.call))) }
{
    add_left(alloc, names, event.left.as_slice())?;
    add_made(alloc, names, &event.call)?;
    Ok(())
}

// Adds the place and the folders above it.
#[tactic(auto, using(crate::proofs::Gathered::both_added))]
fn add_put(alloc: Global, names: &mut List<Text>, p: &Place) -> Result<(), OutOfMemory>
    ensures { OnOk result ((q : Items ℕ) → is_named q names.new ≡ (is_named q names.old || (bytes_eq q p.now || is_under p.now q))) }
{
    add_name(alloc, names, p.as_str())?;
    add_folders(alloc, names, p.as_str())?;
    Ok(())
}

// Adds the names of the step.
#[tactic(auto, using(crate::proofs::Gathered::put_added))]
fn add_step(alloc: Global, names: &mut List<Text>, step: &Step) -> Result<(), OutOfMemory>
    ensures { OnOk result ((q : Items ℕ) → is_named q names.new ≡ (is_named q names.old || is_named q (names_by step.now))) }
{
    match step {
        Step::Happened(event) => add_event(alloc, names, event),
        Step::Put(p, _) => {
            add_put(alloc, names, p)?;
            Ok(())
        }
        Step::Gone(_) => Ok(()),
    }
}

/// The places, and the names of the steps, each once.
pub fn names_of(alloc: Global, places: &[Place], steps: &[Step]) -> Result<List<Text>, OutOfMemory>
    ensures { IfOk result (λ names. (q : Items ℕ) → is_named q names ≡ (is_named q places.now || is_named q (all_names steps.now))) }
{
    let mut names = List::new(alloc);
    add_places(alloc, &mut names, places)?;
    for step in steps {
        add_step(alloc, &mut names, step)?;
    }
    Ok(names)
}
