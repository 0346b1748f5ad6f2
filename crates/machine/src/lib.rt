// The machine: start and step of a team on plain words, over the questions, one process's step and the meeting of processes.
#![tactic(auto)]

pub mod turn; // turn.rt: a step that is taken
pub mod start; // start.rt: a start
pub mod team; // team.rt: start, step and the view of the latches
