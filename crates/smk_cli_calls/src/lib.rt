//! What a call of the program does: what it makes, drives or lists, what of the lock and of the records, and how it ends. Definitions alone, so that laws
//! of calls don't stand on the code that serves them.
#![tactic(auto)]
