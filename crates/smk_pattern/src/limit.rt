//! Constraints on wildcards.

ghost use Rattle.std.specs.Prelude.{◌≡◌, IfOk, OnOk, string_bytes};
ghost use Rattle.regex.specs.Patterns.{default_config};
ghost use Rattle.regex.specs.Strings.{regex_source, regex_config, IsReadFromSource};
ghost use Rattle.smk_pattern.specs.Limits.{IsLimit, IsRegex, whole_of};
ghost use Rattle.smk_pattern.specs.Testers.{IsTesterOf};

use regex::{Error, Matcher, Regex};
use smk_base::{OutOfMemory, Text};
use std::alloc::{AllocError, AllocFailed, Global};
use std::marker::Model;

/// A constraint: its text, and what `regex` made of it for a value as a whole. Contracts see the text.
#[derive(Drop)]
pub(crate) struct Limit {
    text: Text,
    whole: Regex,
}

impl Model for Limit {
    ghost use Rattle.std.specs.Prelude.{List, ℕ};
    ghost use Rattle.smk_pattern.specs.Compiled.{IsCompiledFrom};

    ghost Value = { List ℕ };

    ghost view = { λ a. a.text };

    ghost invariant = { λ a. IsCompiledFrom a.text a.whole };
}

/// Why a text is no constraint.
#[derive(Drop)]
pub(crate) enum LimitFault {
    /// `regex` reads no pattern in it, or it nests too deep.
    NoRegex,
    /// There is no memory for what `regex` makes of it.
    OutOfMemory,
}

fn compile(alloc: Global, text: &str) -> Result<Regex, LimitFault>
    ensures source { IfOk result (λ r. regex_source r ≡ text.now) }
    ensures config { IfOk result (λ r. regex_config r ≡ default_config) }
    ensures read { IfOk result IsReadFromSource }
    ensures is_regex { OnOk result (IsRegex text.now) }
    ensures no_regex { result ≡ Err LimitFault.NoRegex → ¬ (IsRegex text.now) }
{
    match Regex::new(alloc, text) {
        Ok(regex) => Ok(regex),
        Err(Error::Syntax(_)) => Err(LimitFault::NoRegex),
        Err(_) => Err(LimitFault::OutOfMemory),
    }
}

// The constraint for a value as a whole.
fn anchored(alloc: Global, limit: &str) -> Result<String, AllocError>
    ensures { IfOk result (λ text. string_bytes text ≡ whole_of limit.now) }
{
    let mut text = String::from_str(alloc, "\\A(?:")?;
    text.push_str(limit)?;
    text.push_str(")\\z")?;
    Ok(text)
}

impl From<AllocError> for LimitFault {
    ghost use Rattle.std.specs.Prelude.{◌≡◌};
    ghost use Rattle.smk_pattern.specs.declared.limit.LimitFault.{LimitFault};

    ghost from_gives = { λ _ fault. fault ≡ LimitFault.OutOfMemory };

    fn from(_: AllocError) -> LimitFault {
        LimitFault::OutOfMemory
    }
}

impl<T: Drop> From<AllocFailed<T>> for LimitFault {
    ghost use Rattle.std.specs.Prelude.{◌≡◌};
    ghost use Rattle.smk_pattern.specs.declared.limit.LimitFault.{LimitFault};

    ghost from_gives = { λ _ fault. fault ≡ LimitFault.OutOfMemory };

    fn from(_: AllocFailed<T>) -> LimitFault {
        LimitFault::OutOfMemory
    }
}

impl From<OutOfMemory> for LimitFault {
    ghost use Rattle.std.specs.Prelude.{◌≡◌};
    ghost use Rattle.smk_pattern.specs.declared.limit.LimitFault.{LimitFault};

    ghost from_gives = { λ _ fault. fault ≡ LimitFault.OutOfMemory };

    fn from(_: OutOfMemory) -> LimitFault {
        LimitFault::OutOfMemory
    }
}

impl Limit {
    /// Reads the text of a constraint.
    pub(crate) fn read(alloc: Global, text: &str) -> Result<Limit, LimitFault>
        ensures text { IfOk result (λ limit. limit ≡ text.now) }
        ensures read { OnOk result (IsLimit text.now) }
        ensures no_regex { result ≡ Err LimitFault.NoRegex → ¬ (IsLimit text.now) }
    {
        compile(alloc, text)?;
        let whole = anchored(alloc, text)?;
        let whole = compile(alloc, &whole)?;
        Ok(Limit {
            text: Text::of(alloc, text)?,
            whole,
        })
    }

    /// What tests values against the constraint.
    pub(crate) fn tester(&self, alloc: Global) -> Result<Matcher<'_>, AllocError>
        ensures { IfOk result (IsTesterOf self.now) }
    {
        self.whole.matcher(alloc)
    }
}
