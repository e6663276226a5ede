//! The items of directives that may have many.

ghost use Rattle.std.specs.Prelude.{◌≡◌, ◌++◌, ◌∷◌, [], List, ℕ, Result, Ok, Err, IfOk, map};
ghost use Rattle.smk_eval_values.specs.declared.value.Value.{Value};
ghost use Rattle.smk_eval_values.specs.declared.fault.ValueFault.{ValueFault};
ghost use Rattle.smk_eval_values.specs.Values.{Tells};
ghost use Rattle.smk_eval_values.specs.Expressions.{Named, and_then, each, named_in};
ghost use Rattle.smk_flow.specs.declared.rule.Flag.{Flag};
ghost use Rattle.smk_eval_rules.specs.Items as spec;

use crate::resources::Resources;
use crate::values::{number_in, refused, text, within};
use smk_base::{Amount, List, OutOfMemory, Pair, Text, one};
use smk_eval_values::{Scope, Value, ValueFault, bad_flag, list_items, value_of};
use smk_flow::{Flag, FlaggedText, GatherPart, InPart, OutPart};
use smk_parse_tree::ItemForm;
use smk_world::Values;
use std::alloc::Global;

/// The greatest priority, and the greatest amount of a resource.
pub(crate) const GREATEST: u64 = 4_294_967_296;

/// What one item of a directive is.
pub(crate) trait Item: Drop {
    /// What the item of a name and value is in the definitions, in a directive of this word.
    ghost meant: { List ℕ → List ℕ → Value → Result Self ValueFault };

    /// The item of this name and value.
    fn of_value(alloc: Global, word: &str, name: &Text, value: Value) -> Result<Self, ValueFault>
        ensures { Tells result (meant word.now name.now value) };
}

/// What the items of a directive make, one item after the other.
pub(crate) trait Takes: Drop {
    /// What it is in the definitions with one more item, in a directive of this word.
    ghost taken: { List ℕ → Self → List ℕ → Value → Result Self ValueFault };

    /// With what the item of this name and value adds.
    fn take(self, alloc: Global, word: &Text, name: &Text, value: Value) -> Result<Self, ValueFault>
        ensures { Tells result (taken word.now self name.now value) };
}

impl<I: Item> Takes for List<I> {
    ghost use Rattle.smk_eval_rules.specs.Items.{added};

    ghost taken = { λ word made name v. added made (I.meant word name v) };

    fn take(
        self,
        alloc: Global,
        word: &Text,
        name: &Text,
        value: Value,
    ) -> Result<List<I>, ValueFault> {
        let mut made = self;
        made.push(I::of_value(alloc, word.as_str(), name, value)?)?;
        Ok(made)
    }
}

/// What is made so far, with what these items add, in order. The fault is that of the first item that has one.
pub(crate) fn with_items<S: Scope, T: Takes>(
    alloc: Global,
    begun: T,
    items: &[ItemForm],
    scope: &S,
    word: &Text,
) -> Result<T, ValueFault>
    ensures { Tells result (each (λ (i : Named). i.value) (λ made i v. T.taken word.now made i.name v) begun
        (map (named_in word.now (S.seen scope.now)) items.now)) }
{
    let mut made = begun;
    for item in items {
        let value = value_of(alloc, &item.value, scope, word)?;
        made = made.take(alloc, word, &item.name, value)?;
    }
    Ok(made)
}

impl Item for InPart {
    ghost use Rattle.smk_eval_rules.specs.Items.{input};

    ghost meant = { input };

    fn of_value(
        alloc: Global,
        word: &str,
        name: &Text,
        value: Value,
    ) -> Result<InPart, ValueFault> {
        match value {
            Value::Word(text) => Ok(InPart {
                name: name.copy(alloc)?,
                texts: one(alloc, text)?,
                gather: None,
            }),
            Value::Many(texts) => Ok(InPart {
                name: name.copy(alloc)?,
                texts,
                gather: None,
            }),
            Value::Gathered(gathered) => Ok(InPart {
                name: name.copy(alloc)?,
                texts: List::new(alloc),
                gather: Some(GatherPart {
                    checkpoint: gathered.checkpoint,
                    listed: gathered.listed,
                    wanted: gathered.wanted,
                }),
            }),
            other => Err(refused(alloc, word, &other)),
        }
    }
}

// The flag of a word.
fn flag_of(alloc: Global, word: &str) -> Result<Flag, ValueFault>
    ensures { Tells result (spec.flag_of word.now) }
{
    match word {
        "temp" => Ok(Flag::Temp),
        "protected" => Ok(Flag::Protected),
        "directory" => Ok(Flag::Folder),
        _ => Err(bad_flag(alloc, word)),
    }
}

// The flags of these words.
fn flags_of(alloc: Global, words: &[Text]) -> Result<List<Flag>, ValueFault>
    ensures { Tells result (spec.with_flags [] words.now) }
{
    let mut flags = List::new(alloc);
    for word in words {
        flags.push(flag_of(alloc, word.as_str())?)?;
    }
    Ok(flags)
}

fn copied_flags(alloc: Global, flags: &[Flag]) -> Result<List<Flag>, OutOfMemory>
    ensures { IfOk result (λ copy. copy ≡ flags.now) }
{
    let mut copy = List::new(alloc);
    for flag in flags {
        copy.push(*flag)?;
    }
    Ok(copy)
}

// An item of outputs, each text with these flags.
fn flagged(
    alloc: Global,
    name: &Text,
    flags: &[Flag],
    texts: &[Text],
) -> Result<OutPart, OutOfMemory>
    ensures { IfOk result (λ part. part ≡ spec.flagged name.now flags.now texts.now) }
{
    let mut outs = List::new(alloc);
    for text in texts {
        outs.push(FlaggedText {
            text: text.copy(alloc)?,
            flags: copied_flags(alloc, flags)?,
        })?;
    }
    Ok(OutPart {
        name: name.copy(alloc)?,
        outs,
    })
}

impl Item for OutPart {
    ghost use Rattle.smk_eval_rules.specs.Items.{output};

    ghost meant = { output };

    fn of_value(
        alloc: Global,
        word: &str,
        name: &Text,
        value: Value,
    ) -> Result<OutPart, ValueFault> {
        match value {
            Value::Word(text) => Ok(flagged(
                alloc,
                name,
                [].as_slice(),
                one(alloc, text)?.as_slice(),
            )?),
            Value::Many(texts) => Ok(flagged(alloc, name, [].as_slice(), texts.as_slice())?),
            Value::Flagged(inner) => {
                let flags = flags_of(alloc, inner.flags.as_slice())?;
                Ok(flagged(alloc, name, flags.as_slice(), inner.texts.as_slice())?)
            }
            other => Err(refused(alloc, word, &other)),
        }
    }
}

impl Item for Values {
    ghost use Rattle.smk_eval_rules.specs.Items.{param};

    ghost meant = { param };

    fn of_value(
        alloc: Global,
        word: &str,
        name: &Text,
        value: Value,
    ) -> Result<Values, ValueFault> {
        Ok(Values {
            name: name.copy(alloc)?,
            values: list_items(alloc, &value, word)?,
        })
    }
}

impl Item for Pair {
    ghost use Rattle.smk_eval_rules.specs.Items.{limit};

    ghost meant = { limit };

    fn of_value(alloc: Global, word: &str, name: &Text, value: Value) -> Result<Pair, ValueFault> {
        if name.as_str() == "" {
            return Err(refused(alloc, word, &value));
        }
        let value = text(alloc, word, value)?;
        Ok(Pair {
            name: name.copy(alloc)?,
            value,
        })
    }
}

// With a resource that is counted.
fn counted(
    alloc: Global,
    made: Resources,
    name: &Text,
    count: u64,
) -> Result<Resources, OutOfMemory>
    ensures { IfOk result (λ now. now ≡ spec.counted made name.now count) }
{
    let mut made = made;
    made.amounts.push(Amount {
        name: name.copy(alloc)?,
        count,
    })?;
    Ok(made)
}

// With a resource that is a text.
fn worded(
    alloc: Global,
    made: Resources,
    name: &Text,
    value: Text,
) -> Result<Resources, OutOfMemory>
    ensures { IfOk result (λ now. now ≡ spec.worded made name.now value) }
{
    let mut made = made;
    made.words.push(Pair {
        name: name.copy(alloc)?,
        value,
    })?;
    Ok(made)
}

impl Takes for Resources {
    ghost use Rattle.smk_eval_rules.specs.Items.{with_resource};

    ghost taken = { λ word made name v. with_resource word made name v };

    fn take(
        self,
        alloc: Global,
        word: &Text,
        name: &Text,
        value: Value,
    ) -> Result<Resources, ValueFault> {
        let word = word.as_str();
        if name.as_str() == "" {
            return Err(refused(alloc, word, &value));
        }
        match number_in(&value) {
            Some(number) => {
                let count = within(alloc, word, 0, GREATEST, number)?;
                Ok(counted(alloc, self, name, count)?)
            }
            None => Ok(worded(alloc, self, name, text(alloc, word, value)?)?),
        }
    }
}

// No resources.
fn no_resources(alloc: Global) -> Resources
    ensures { result ≡ record { amounts = []; words = [] } }
{
    Resources {
        amounts: List::new(alloc),
        words: List::new(alloc),
    }
}

/// The items of a directive of this word, each as one.
pub(crate) fn each_item<S: Scope, I: Item>(
    alloc: Global,
    items: &[ItemForm],
    scope: &S,
    word: &Text,
) -> Result<List<I>, ValueFault>
    ensures { Tells result (spec.each_item (I.meant word.now) (map (named_in word.now (S.seen scope.now)) items.now)) }
{
    with_items(alloc, List::new(alloc), items, scope, word)
}

/// The resources.
pub(crate) fn resources<S: Scope>(
    alloc: Global,
    items: &[ItemForm],
    scope: &S,
    word: &Text,
) -> Result<Resources, ValueFault>
    ensures { Tells result (spec.all_resources word.now (map (named_in word.now (S.seen scope.now)) items.now)) }
{
    with_items(alloc, no_resources(alloc), items, scope, word)
}
