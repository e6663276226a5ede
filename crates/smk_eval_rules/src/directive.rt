//! Directives by their words, but for `log`.

ghost use Rattle.std.specs.Prelude.{◌≡◌};
ghost use Rattle.smk_eval_rules.specs.Rules.{directive_of};

/// A directive of a rule.
#[derive(Clone, Copy, PartialEq, Eq)]
pub(crate) enum Directive {
    Input,
    Output,
    Params,
    Threads,
    Priority,
    Resources,
    Limits,
    Shell,
    DefaultTarget,
    /// One that is read and ignored.
    Ignored,
}

/// The directive of this word.
#[tactic(auto, unfolding(crate::specs::Rules::directive_of))]
pub(crate) fn directive_of(word: &str) -> Directive
    ensures { result ≡ directive_of word.now }
{
    match word {
        "input" => Directive::Input,
        "output" => Directive::Output,
        "params" => Directive::Params,
        "threads" => Directive::Threads,
        "priority" => Directive::Priority,
        "resources" => Directive::Resources,
        "wildcard_constraints" => Directive::Limits,
        "shell" => Directive::Shell,
        "default_target" => Directive::DefaultTarget,
        _ => Directive::Ignored,
    }
}
