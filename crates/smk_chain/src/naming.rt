//! What jobs are named by.

ghost use Rattle.std.specs.Prelude.{◌≡◌, map, option_map};
ghost use Rattle.smk_world.specs.Trees.{first};
ghost use Rattle.smk_world.specs.World.{out_paths};

use smk_base::PathText;
use smk_flow::Job;
use smk_world::Out;

// The path of the first output.
fn first_path(outs: &[Out]) -> Option<&PathText>
    ensures { option_map (λ p. p.now) result ≡ first (map (λ out. out.path) outs.now) }
{
    match outs.first() {
        Some(out) => Some(&out.path),
        None => None,
    }
}

/// The job's first output, by which it is named; none where it has no output.
pub fn first_output(job: &Job) -> Option<&PathText>
    ensures { option_map (λ p. p.now) result ≡ first (out_paths job.now.recipe) }
{
    for item in job.recipe.outputs.as_slice() {
        if let Some(path) = first_path(item.outs.as_slice()) {
            return Some(path);
        }
    }
    None
}
