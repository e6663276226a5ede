//! Constraints by their texts.

ghost use Rattle.std.specs.Prelude.{◌≡◌, IfOk, OnOk};
ghost use Rattle.smk_pattern.specs.Limits.{IsLimit};

use crate::limit::{Limit, LimitFault};
use std::alloc::Global;
use std::collections::BTreeMap;
use std::marker::Model;
use std::rc::Rc;

/// Constraints that were compiled, each once for its text. Patterns that are read with the same `Limits` share what `regex` made of
/// equal constraints. Contracts see nothing of it, since it changes no answer.
#[derive(Drop)]
pub struct Limits {
    by_text: BTreeMap<String, Rc<Limit>>,
}

impl Model for Limits {
    ghost use Rattle.smk_pattern.specs.Compiled.{AreCompiled};

    ghost Value = { Unit {0} };

    ghost view = { λ a. tt };

    ghost invariant = { λ a. AreCompiled a.by_text };
}

impl Limits {
    /// No constraints, which takes no memory.
    pub fn new(alloc: Global) -> Limits {
        Limits {
            by_text: BTreeMap::new(alloc),
        }
    }

    /// The constraint with this text, which is compiled where it hasn't been.
    pub(crate) fn get(&mut self, alloc: Global, text: &str) -> Result<Rc<Limit>, LimitFault>
        ensures text { IfOk result (λ limit. limit.value ≡ text.now) }
        ensures read { OnOk result (IsLimit text.now) }
        ensures no_regex { result ≡ Err LimitFault.NoRegex → ¬ (IsLimit text.now) }
    {
        if let Some(limit) = self.by_text.get(text) {
            return Ok(limit.clone()?);
        }
        let limit = Rc::new(alloc, Limit::read(alloc, text)?)?;
        let text = String::from_str(alloc, text)?;
        self.by_text.insert(text, limit.clone()?)?;
        Ok(limit)
    }
}
