//! The children of a workspace, and what they make.
ghost use Rattle.std.specs.Prelude.{◌≡◌, ◌++◌, IfOk, OnOk, map, not, nat_eq};
ghost use Rattle.std.specs.List.{filter};
ghost use Rattle.std.specs.Option.{option_map};
ghost use Rattle.smk_world.specs.World.{out_paths, child_numbered};

use smk_base::{Copied, List, OutOfMemory, PathText};
use smk_world::{Child, Out, Recipe};
use std::alloc::Global;

/// The children with other numbers.
pub fn others(
    alloc: Global,
    children: &List<Child>,
    number: u64,
) -> Result<List<Child>, OutOfMemory>
    ensures { IfOk result (λ left. left ≡ filter (λ c. not (nat_eq c.number number)) children.now) }
{
    let mut left = List::new(alloc);
    for child in children.as_slice() {
        if child.number != number {
            left.push(Child {
                number: child.number,
                recipe: child.recipe.copied(alloc)?,
                logs: child.logs.copied(alloc)?,
            })?;
        }
    }
    Ok(left)
}

fn push_outs(alloc: Global, paths: &mut List<PathText>, outs: &List<Out>) -> Result<(), OutOfMemory>
    ensures { OnOk result (paths.new ≡ paths.old ++ map (λ out. out.path) outs.now) }
{
    for out in outs.as_slice() {
        paths.push(out.path.copied(alloc)?)?;
    }
    Ok(())
}

/// The paths of the outputs.
pub fn outputs(alloc: Global, recipe: &Recipe) -> Result<List<PathText>, OutOfMemory>
    ensures { IfOk result (λ paths. paths ≡ out_paths recipe.now) }
{
    let mut paths = List::new(alloc);
    for item in recipe.outputs.as_slice() {
        push_outs(alloc, &mut paths, &item.outs)?;
    }
    Ok(paths)
}

/// The child of this number.
pub fn find(children: &[Child], number: u64) -> Option<&Child>
    ensures { option_map (λ c. c.now) result ≡ child_numbered number children.now }
{
    let mut rest = children;
    while let [child, more @ ..] = rest {
        if child.number == number {
            return Some(child);
        }
        rest = more;
    }
    None
}
