// The value of an expression, in a process's words or as the table fixes it.
#![tactic(auto)]

pub mod evaluation; // evaluation.rt: the value in a process's words
pub mod fixing; // fixing.rt: what an expression is fixed as
