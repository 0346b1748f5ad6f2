// One process on its words: its stack, and the step of a statement that is no collective.
#![tactic(auto)]

pub mod stack; // stack.rt: the words of a process and its stack
pub mod step; // step.rt: the step of the top statement
