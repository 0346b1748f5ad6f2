// Where processes meet: the roll of arrivals, and collectives (the paper's meetings), on plain words.
#![tactic(auto)]

pub mod arrivals; // arrivals.rt: the roll, and the status of the team
pub mod completion; // completion.rt: what a process brings to a collective, and what it takes away
