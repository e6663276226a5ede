//! Options, and the parts that words spell.

ghost use Rattle.std.specs.Prelude.{◌≡◌, find, option_map};
ghost use Rattle.smk_words_reading.specs.Words.{flag_word, setting_word};
ghost use Rattle.smk_words_reading.specs.Reading.{flag_named, setting_named, flag_at, setting_at};
ghost use Rattle.smk_words_reading.specs.Asks as spec;

use smk_base::Text;

/// An option without a value.
#[derive(Clone, Copy, PartialEq, Eq)]
pub enum Flag {
    /// `--dry-run`, `-n`: only what would be done is told.
    DryRun,
    /// `--keep-going`, `-k`: other jobs go on after one has failed.
    KeepGoing,
    /// `--rerun-incomplete`: what was left unfinished runs again.
    RerunIncomplete,
    /// `--force`, `-f`: the jobs that make the targets run whatever their records say.
    Force,
    /// `--forceall`, `-F`: all jobs do.
    ForceAll,
    /// `--unlock`: the lock goes.
    Unlock,
    /// `--nolock`: the lock is neither heeded nor taken.
    NoLock,
}

/// An option with a value.
#[derive(Clone, Copy, PartialEq, Eq)]
pub enum Setting {
    /// `--cores`, `-c`: how many cores the jobs may use together.
    Cores,
    /// `--snakefile`, `-s`: the file of the workflow.
    Snakefile,
    /// `--config`, `-C`: a value of the configuration.
    Config,
    /// `--resources`: how much of a resource the jobs may use together.
    Resources,
    /// `--cleanup-metadata`: a path of which what is kept goes.
    CleanupMetadata,
    /// `--generate`: a seed and a size.
    Generate,
}

/// What words spell: a target, a flag, or an option with its value.
#[derive(Drop)]
pub enum Part {
    Target(Text),
    Flagged(Flag),
    Given(Setting, Text),
}

const FLAGS: [Flag; 7] = [
    Flag::DryRun,
    Flag::KeepGoing,
    Flag::RerunIncomplete,
    Flag::Force,
    Flag::ForceAll,
    Flag::Unlock,
    Flag::NoLock,
];

const SETTINGS: [Setting; 6] = [
    Setting::Cores,
    Setting::Snakefile,
    Setting::Config,
    Setting::Resources,
    Setting::CleanupMetadata,
    Setting::Generate,
];

impl Flag {
    // How the flag is spelled in full.
    fn word(self) -> &'static str
        ensures { result.now ≡ flag_word self }
    {
        match self {
            Flag::DryRun => "--dry-run",
            Flag::KeepGoing => "--keep-going",
            Flag::RerunIncomplete => "--rerun-incomplete",
            Flag::Force => "--force",
            Flag::ForceAll => "--forceall",
            Flag::Unlock => "--unlock",
            Flag::NoLock => "--nolock",
        }
    }

    /// The flag that the word is.
    pub(crate) fn named(word: &str) -> Option<Flag>
        ensures { result ≡ flag_named word.now }
    {
        for flag in FLAGS {
            if flag.word() == word {
                return Some(flag);
            }
        }
        None
    }

    /// The flag with this letter.
    pub(crate) fn at(letter: u8) -> Option<Flag>
        ensures { result ≡ flag_at letter }
    {
        match letter {
            b'n' => Some(Flag::DryRun),
            b'k' => Some(Flag::KeepGoing),
            b'f' => Some(Flag::Force),
            b'F' => Some(Flag::ForceAll),
            _ => None,
        }
    }
}

impl Setting {
    // How the option is spelled in full.
    fn word(self) -> &'static str
        ensures { result.now ≡ setting_word self }
    {
        match self {
            Setting::Cores => "--cores",
            Setting::Snakefile => "--snakefile",
            Setting::Config => "--config",
            Setting::Resources => "--resources",
            Setting::CleanupMetadata => "--cleanup-metadata",
            Setting::Generate => "--generate",
        }
    }

    /// The option that the word is.
    pub(crate) fn named(word: &str) -> Option<Setting>
        ensures { result ≡ setting_named word.now }
    {
        for setting in SETTINGS {
            if setting.word() == word {
                return Some(setting);
            }
        }
        None
    }

    /// The option with this letter.
    pub(crate) fn at(letter: u8) -> Option<Setting>
        ensures { result ≡ setting_at letter }
    {
        match letter {
            b'c' => Some(Setting::Cores),
            b's' => Some(Setting::Snakefile),
            b'C' => Some(Setting::Config),
            _ => None,
        }
    }
}

impl Part {
    /// Whether the part is this flag.
    pub(crate) fn is_flag(&self, flag: Flag) -> bool
        ensures { result ≡ spec.is_flag flag self.now }
    {
        match self {
            Part::Flagged(other) => other.word() == flag.word(),
            _ => false,
        }
    }

    /// The value, where the part is this option.
    pub(crate) fn value_of(&self, setting: Setting) -> Option<&str>
        ensures { option_map (λ v. v.now) result ≡ spec.value_of setting self.now }
    {
        match self {
            Part::Given(other, value) if other.word() == setting.word() => Some(value.as_str()),
            _ => None,
        }
    }

    /// The word, where the part is a target.
    pub(crate) fn target(&self) -> Option<&str>
        ensures { option_map (λ word. word.now) result ≡ spec.target_of self.now }
    {
        match self {
            Part::Target(word) => Some(word.as_str()),
            _ => None,
        }
    }

    /// Whether the part is a path to be forgotten, or says that the lock isn't heeded.
    pub(crate) fn is_of_cleanup(&self) -> bool
        ensures { result ≡ spec.is_of_cleanup self.now }
    {
        match self {
            Part::Target(_) => false,
            Part::Flagged(flag) => flag.word() == Flag::NoLock.word(),
            Part::Given(setting, _) => setting.word() == Setting::CleanupMetadata.word(),
        }
    }
}
