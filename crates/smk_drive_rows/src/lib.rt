//! Worked logs, steps and calls that try the definitions of a run: good ones, held against every clause, and wrong ones, each refused by one.
#![tactic(auto)]
