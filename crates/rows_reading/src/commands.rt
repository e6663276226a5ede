//! The command of a job.

use rows_lines::{Trouble, push_row, push_title};
use smk_base::{List, PathText, Text, one};
use smk_flow::Job;
use smk_format::command;
use smk_world::{Item, Recipe};
use std::alloc::{AllocError, Global};

/// The inputs `reads`.
fn item(alloc: Global) -> Result<Item, Trouble> {
    let input = PathText::read(alloc, "in.txt")?;
    Ok(Item {
        name: Text::of(alloc, "reads")?,
        paths: one(alloc, input)?,
    })
}

/// A recipe of this template.
fn recipe(alloc: Global, template: &str) -> Result<Recipe, Trouble> {
    let inputs = one(alloc, item(alloc)?)?;
    Ok(Recipe {
        template: Text::of(alloc, template)?,
        wildcards: List::new(alloc),
        params: List::new(alloc),
        inputs,
        outputs: List::new(alloc),
    })
}

/// A job of this template, with 8 threads.
fn job(alloc: Global, template: &str) -> Result<Job, Trouble> {
    Ok(Job {
        rule: 0,
        recipe: recipe(alloc, template)?,
        gathers: List::new(alloc),
        logs: List::new(alloc),
        threads: 8,
        amounts: List::new(alloc),
        words: List::new(alloc),
        priority: 0,
        temps: List::new(alloc),
        guards: List::new(alloc),
    })
}

/// The command of a job of this template, with 5 threads.
fn made(alloc: Global, template: &str) -> Result<String, Trouble> {
    let job = job(alloc, template)?;
    match command(alloc, &job, 5) {
        Ok(text) => Ok(String::from_str(alloc, text.as_str())?),
        Err(_) => Err(Trouble::NoValue),
    }
}

/// Adds the row on commands.
pub fn push_rows(alloc: Global, text: &mut String) -> Result<(), AllocError> {
    push_title(
        text,
        "the command of a job with the input reads=in.txt and 5 threads",
    )?;
    let template = "{{{input}}} {input[0]} {input.reads}{output} ß {threads}";
    let found = made(alloc, template);
    push_row(text, template, &found, "{in.txt} in.txt in.txt ß 5")
}
