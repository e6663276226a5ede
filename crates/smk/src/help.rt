//! What the program tells of itself.

/// The page of `--help`.
pub(crate) const HELP: &str = "\
smk runs pipelines written as Snakefiles: it finds out which jobs have to run, runs these, and reports.

Usage:
  smk -c N [OPTION ..] [TARGET ..]    make the targets
  smk -n [OPTION ..] [TARGET ..]      list what a run would do and why, and change nothing
  smk --unlock                        remove the lock, whoever left it
  smk --cleanup-metadata PATH         forget what is kept of PATH, which is a source then; may be repeated
  smk --generate SEED:SIZE            try the program on a workflow of SIZE samples that is made in memory
  smk --help                          print this page
  smk --version                       print the version

A target is a path, or the name of a rule, which stands for the rule's outputs or, where it has none, for its
inputs. Without a target the rule with `default_target: True` is made, else the first rule of the workflow's file
itself.

Options:
  -c, --cores N             run jobs side by side on at most N cores, 1 to 4096
  -n, --dry-run             list the jobs of a run; with -c N those of a run with N cores, else with one
  -s, --snakefile FILE      read the workflow from FILE, and not from the first that is there of Snakefile,
                            snakefile, workflow/Snakefile and workflow/snakefile
  -C, --config KEY=VALUE    set KEY of the configuration to this text; the last VALUE of a KEY counts
      --resources NAME=N    use at most N of the resource NAME at a time; a job that asks for more is refused
      --rerun-incomplete    run jobs again that were left unfinished; else a plan with such jobs is refused
      --nolock              neither heed nor take the lock: of a run and of --cleanup-metadata
  -k, --keep-going          go on after a failed job with those that need nothing of it
  -f, --force               run the jobs that make the targets again
  -F, --forceall            run all jobs again
  --                        all words that follow are targets

A value is the next word, or it stands behind `=`, as in --cores=4, or at once behind the letter, as in -c4. Letters
can be joined, as in -nF. --config and --resources can be repeated, --resources with another NAME; all others stand
once.

SEED is 0 to 4294967295, and SIZE 1 to 2000. The folder is left alone, and the time grows with the square of SIZE.

Status:
  0  all is made, or listed
  1  a job failed
  2  the words are refused
  3  the workflow, a target, the plan or a job is refused, or the lock stands
  4  the folder, its disk or a child process couldn't be used
  5  there is no memory
  6  the report couldn't be written

Examples:
  smk -c 4                           make the default target
  smk -n results/table.txt           what would a run do for this file?
  smk -nF all                        all jobs that the targets of this rule have
  smk -c 1 -s other.smk -C sample=A  another workflow, with a text of its configuration set
";
