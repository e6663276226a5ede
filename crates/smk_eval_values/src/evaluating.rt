//! The values of expressions.

ghost use Rattle.std.specs.Prelude.{◌≡◌, ◌≢◌, ◌++◌, ◌∷◌, [], map, IfOk, OnOk};
ghost use Rattle.smk_eval_values.specs.Values.{Tells};
ghost use Rattle.smk_eval_values.specs.Expressions as spec;

use crate::Choices;
use crate::fault::ValueFault;
use crate::operators::{bad_flag, choice_values, expansion, flag, list_items, patterns, truth};
use crate::sums::{begun, ended, plus};
use crate::value::{Gathered, Value};
use smk_base::{List, Text};
use smk_parse_tree::{ExpandForm, Expr, ItemForm, OutputPick};
use std::alloc::Global;

/// What names stand for where an expression stands: constants, the outputs of the rules above, and the configuration.
pub trait Scope {
    /// What it is in the definitions.
    ghost seen: { Self → spec.Scope };

    /// The value of a constant.
    fn constant(&self, alloc: Global, name: &Text) -> Result<Value, ValueFault>
        ensures { Tells result (spec.known name.now ((seen self.now).constant name.now)) };

    /// The outputs of a rule above.
    fn outputs(&self, alloc: Global, rule: &Text, pick: &OutputPick) -> Result<Value, ValueFault>
        ensures { Tells result ((seen self.now).outputs rule.now pick.now) };

    /// What stands under keys of the configuration.
    fn config(&self, alloc: Global, keys: &List<Text>) -> Result<Value, ValueFault>
        ensures { Tells result ((seen self.now).config keys.now) };
}

// The texts with those that the value adds to a list.
fn with_items(
    alloc: Global,
    made: List<Text>,
    value: &Value,
    word: &Text,
) -> Result<List<Text>, ValueFault>
    ensures { Tells result (spec.with_items word.now made value.now) }
{
    let mut made = made;
    let items = list_items(alloc, value, word.as_str())?;
    for item in items.as_slice() {
        made.push(item.copy(alloc)?)?;
    }
    Ok(made)
}

/// The value of an expression in a directive or statement of this word, in a scope. The fault is the first of the expression, or
/// `OutOfMemory` where there is no memory for the value.
#[cycle(evaluate)]
pub fn value_of<S: Scope>(
    alloc: Global,
    e: &Expr,
    scope: &S,
    word: &Text,
) -> Result<Value, ValueFault>
    ensures { Tells result (spec.value_in word.now (S.seen scope.now) e.now) }
{
    match e {
        Expr::Word(text) => Ok(Value::Word(text.copy(alloc)?)),
        Expr::Number(number) => Ok(Value::Number(*number)),
        Expr::Truth(truth) => Ok(Value::Truth(*truth)),
        Expr::Name(name) => scope.constant(alloc, name),
        Expr::Config(keys) => scope.config(alloc, keys),
        Expr::Outputs(rule, pick) => scope.outputs(alloc, rule, pick),
        Expr::Many(parts) => Ok(Value::Many(many(alloc, parts.as_slice(), scope, word)?)),
        Expr::Sum(parts) => sum(alloc, parts.as_slice(), scope, word),
        Expr::Flagged(name, inner) => {
            flag(
                alloc,
                name.as_str(),
                &value_of(alloc, inner.get(), scope, word)?,
            )
        }
        Expr::Expand(form) => called(alloc, form, scope, word),
        Expr::FromCheckpoint(checkpoint, listed, wanted) => Ok(Value::Gathered(Gathered {
            checkpoint: checkpoint.copy(alloc)?,
            listed: listed.copy(alloc)?,
            wanted: wanted.copy(alloc)?,
        })),
    }
}

#[cycle(evaluate)]
fn many<S: Scope>(
    alloc: Global,
    parts: &[Expr],
    scope: &S,
    word: &Text,
) -> Result<List<Text>, ValueFault>
    ensures { Tells result (spec.listed word.now (map (spec.value_in word.now (S.seen scope.now)) parts.now)) }
{
    let mut texts = List::new(alloc);
    for part in parts {
        let value = value_of(alloc, part, scope, word)?;
        texts = with_items(alloc, texts, &value, word)?;
    }
    Ok(texts)
}

#[cycle(evaluate)]
fn sum<S: Scope>(alloc: Global, parts: &[Expr], scope: &S, word: &Text) -> Result<Value, ValueFault>
    ensures { Tells result (spec.summed (map (spec.value_in word.now (S.seen scope.now)) parts.now)) }
{
    match parts {
        [] => Err(bad_flag(alloc, "+")),
        [first, later @ ..] => {
            let first = value_of(alloc, first, scope, word)?;
            let mut total = begun(alloc, first)?;
            for part in later {
                let term = value_of(alloc, part, scope, word)?;
                total = plus(alloc, total, &term)?;
            }
            Ok(ended(alloc, total)?)
        }
    }
}

/// What the names of a call of `expand` say.
#[derive(Drop)]
struct Call {
    choices: List<Choices>,
    missing: bool,
}

// The call with this name, which has this value.
fn with_name(alloc: Global, call: Call, name: &Text, value: &Value) -> Result<Call, ValueFault>
    ensures { Tells result (spec.with_name call name.now value.now) }
{
    let mut call = call;
    if name.as_str() == "allow_missing" {
        call.missing = truth(alloc, value)?;
        return Ok(call);
    }
    call.choices.push(Choices {
        name: name.copy(alloc)?,
        values: choice_values(alloc, value)?,
    })?;
    Ok(call)
}

#[cycle(evaluate)]
fn names<S: Scope>(
    alloc: Global,
    items: &[ItemForm],
    scope: &S,
    word: &Text,
) -> Result<Call, ValueFault>
    ensures { Tells result (spec.names (map (spec.named_in word.now (S.seen scope.now)) items.now)) }
{
    let mut call = Call {
        choices: List::new(alloc),
        missing: false,
    };
    for item in items {
        let value = value_of(alloc, &item.value, scope, word)?;
        call = with_name(alloc, call, &item.name, &value)?;
    }
    Ok(call)
}

#[cycle(evaluate)]
fn called<S: Scope>(
    alloc: Global,
    form: &ExpandForm,
    scope: &S,
    word: &Text,
) -> Result<Value, ValueFault>
    ensures { Tells result (spec.called_in word.now (S.seen scope.now) form.now) }
{
    let pattern = value_of(alloc, form.pattern.get(), scope, word)?;
    let patterns = patterns(alloc, &pattern)?;
    let call = names(alloc, form.named.as_slice(), scope, word)?;
    expansion(
        alloc,
        patterns.as_slice(),
        call.choices.as_slice(),
        form.zip,
        call.missing,
    )
}
