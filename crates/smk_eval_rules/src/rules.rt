//! Rules, directive by directive.

ghost use Rattle.std.specs.Prelude.{◌≡◌, IfOk};
ghost use Rattle.smk_eval_values.specs.Values.{Tells};
ghost use Rattle.smk_eval_rules.specs.Rules as spec;

use crate::commands::with_places;
use crate::directive::{Directive, directive_of};
use crate::items::{GREATEST, each_item, resources};
use crate::limits::with_globals;
use crate::logs::{Logs, NamedRule, all_logs};
use crate::one::{one_number, one_text, one_truth};
use crate::resources::Resources;
use smk_base::{List, OutOfMemory, Pair, PathText};
use smk_eval_values::{Scope, ValueFault};
use smk_flow::RulePart;
use smk_parse_tree::{DirectiveForm, RuleForm};
use std::alloc::Global;

// What a rule has before its directives.
fn begun_part(
    alloc: Global,
    form: &RuleForm,
    file: &PathText,
    line: u64,
) -> Result<RulePart, OutOfMemory>
    ensures { IfOk result (λ part. part ≡ spec.begun_part form.now file.now line) }
{
    Ok(RulePart {
        name: form.name.copy(alloc)?,
        checkpoint: form.checkpoint,
        inputs: List::new(alloc),
        outputs: List::new(alloc),
        params: List::new(alloc),
        logs: List::new(alloc),
        threads: 1,
        amounts: List::new(alloc),
        words: List::new(alloc),
        priority: 0,
        limits: List::new(alloc),
        default_target: false,
        command: None,
        file: file.copy(alloc)?,
        line,
    })
}

// The same, with no item of logs.
fn begun(
    alloc: Global,
    form: &RuleForm,
    file: &PathText,
    line: u64,
) -> Result<NamedRule, OutOfMemory>
    ensures { IfOk result (λ rule. rule ≡ spec.begun form.now file.now line) }
{
    let part = begun_part(alloc, form, file, line)?;
    Ok(NamedRule {
        part,
        logs: List::new(alloc),
    })
}

// The resources of a directive, in the rule.
fn with_resources(part: RulePart, resources: Resources) -> RulePart
    ensures { result ≡ record part { amounts = resources.amounts; words = resources.words } }
{
    let mut part = part;
    part.amounts = resources.amounts;
    part.words = resources.words;
    part
}

// The rule with what the directive says, which isn't `log`.
fn with_other<S: Scope>(
    alloc: Global,
    part: RulePart,
    form: &DirectiveForm,
    scope: &S,
) -> Result<RulePart, ValueFault>
    ensures { Tells result (spec.with_other (S.seen scope.now) part form.now) }
{
    let mut part = part;
    let items = form.items.as_slice();
    let word = &form.word;
    match directive_of(word.as_str()) {
        Directive::Input => {
            part.inputs = each_item(alloc, items, scope, word)?;
            Ok(part)
        }
        Directive::Output => {
            part.outputs = each_item(alloc, items, scope, word)?;
            Ok(part)
        }
        Directive::Params => {
            part.params = each_item(alloc, items, scope, word)?;
            Ok(part)
        }
        Directive::Threads => {
            part.threads = one_number(alloc, items, scope, word, 1, 4096)?;
            Ok(part)
        }
        Directive::Priority => {
            part.priority = one_number(alloc, items, scope, word, 0, GREATEST)?;
            Ok(part)
        }
        Directive::Resources => {
            let resources = resources(alloc, items, scope, word)?;
            Ok(with_resources(part, resources))
        }
        Directive::Limits => {
            part.limits = each_item(alloc, items, scope, word)?;
            Ok(part)
        }
        Directive::Shell => {
            part.command = Some(one_text(alloc, items, scope, word)?);
            Ok(part)
        }
        Directive::DefaultTarget => {
            part.default_target = one_truth(alloc, items, scope, word)?;
            Ok(part)
        }
        Directive::Ignored => Ok(part),
    }
}

// The logs of a directive, in the rule.
fn with_logs(part: RulePart, logs: Logs) -> NamedRule
    ensures { result ≡ spec.with_logs part logs }
{
    let mut part = part;
    part.logs = logs.texts;
    NamedRule {
        part,
        logs: logs.items,
    }
}

// The rule with what the directive says.
fn with_directive<S: Scope>(
    alloc: Global,
    rule: NamedRule,
    form: &DirectiveForm,
    scope: &S,
) -> Result<NamedRule, ValueFault>
    ensures { Tells result (spec.with_directive (S.seen scope.now) rule form.now) }
{
    let NamedRule { part, logs } = rule;
    if form.word.as_str() == "log" {
        let logs = all_logs(alloc, form.items.as_slice(), scope, &form.word)?;
        Ok(with_logs(part, logs))
    } else {
        let part = with_other(alloc, part, form, scope)?;
        Ok(NamedRule { part, logs })
    }
}

// The rule with what these directives say, in order.
fn with_directives<S: Scope>(
    alloc: Global,
    rule: NamedRule,
    forms: &[DirectiveForm],
    scope: &S,
) -> Result<NamedRule, ValueFault>
    ensures { Tells result (spec.with_directives (S.seen scope.now) rule forms.now) }
{
    let mut made = rule;
    for form in forms {
        match with_directive(alloc, made, form, scope) {
            Ok(now) => made = now,
            Err(fault) => return Err(fault),
        }
    }
    Ok(made)
}

/// The rule that its form makes in a scope, its directives evaluated in the order in which they stand; `file` is the file that it stands
/// in, `line` the first line of its statement, and `globals` are the constraints of the whole file, which hold for all names but
/// those of the rule's own. A rule has 1 thread and the priority 0 where it doesn't say otherwise. In its command a field `{log.NAME}`,
/// where an item of its logs has this name, stands as the fields `{log[K]}` of the places of the item's texts, with a space between.
///
/// The fault is the first one, of a value or of what doesn't stand there: a value of another kind than the directive has or out of its
/// limits, a flag outside `output`, more than one item or a named one in a directive of one value, an item without a name where
/// names are needed. It is `BadFlag` with the word of the value's outermost flag, where it has one, else with the directive's.
/// `OutOfMemory` where there is no memory for the rule or the fault.
pub fn rule_part<S: Scope>(
    alloc: Global,
    form: &RuleForm,
    file: &PathText,
    line: u64,
    globals: &List<Pair>,
    scope: &S,
) -> Result<RulePart, ValueFault>
    ensures { Tells result (spec.rule_of (S.seen scope.now) globals.now form.now file.now line) }
{
    let rule = begun(alloc, form, file, line)?;
    let rule = with_directives(alloc, rule, form.directives.as_slice(), scope)?;
    let part = with_places(alloc, rule)?;
    Ok(with_globals(alloc, part, globals)?)
}
