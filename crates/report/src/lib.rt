// What the programs print: the paper's words, on standard output. A write that fails is returned, and nothing is printed after it.
#![tactic(auto)]

ghost use Rattle.std.specs.Prelude.{◌≡◌};
ghost use Rattle.rules.specs.Answers.{event_word, team_word};

use rules::{Answer, Event, Refusal, TeamStatus};
use std::io;

pub fn accepted(rt: &impl Print) -> io::Result<()> {
    println!(rt; "accepted")
}

// "refused 15 3 (number, place)"
pub fn refusal(rt: &impl Print, r: Refusal) -> io::Result<()> {
    println!(rt; "refused {r}")
}

// A refusal with the table that it is about.
pub fn refusal_of(rt: &impl Print, r: Refusal, table: &str) -> io::Result<()> {
    println!(rt; "refused {r} {table}")
}

// A table as it is.
pub fn table(rt: &impl Print, bytes: &[u8]) -> io::Result<()> {
    rt.write_all(bytes)
}

// The line above the first turn.
pub fn header(rt: &impl Print) -> io::Result<()> {
    println!(rt; "bank what node site")
}

fn event_word(event: Event) -> &'static str
    ensures { result.now ≡ event_word event }
{
    match event {
        Event::Moved => "moved",
        Event::Finished => "finished",
        Event::Arrived(_) => "arrived",
        Event::Completed(_) => "met",
        Event::Waiting => "waits",
        Event::Ended => "ended",
    }
}

fn team_word(team: TeamStatus) -> &'static str
    ensures { result.now ≡ team_word team }
{
    match team {
        TeamStatus::Going => "going",
        TeamStatus::Done => "done",
        TeamStatus::Deadlocked => "crossed",
    }
}

// "bank, what happened .., the node for arrived and met, else 0, and the site"
pub fn turn(rt: &impl Print, bank: u32, answer: Answer) -> io::Result<()> {
    let what = event_word(answer.event);
    let node = answer.event.node();
    let site = team_word(answer.team);
    println!(rt; "{bank} {what} {node} {site}")
}

// How many turns were made, which bank was last, and the site, below a line that names them.
pub fn served(rt: &impl Print, made: u32, last: u32, team: TeamStatus) -> io::Result<()> {
    let site = team_word(team);
    println!(rt; "made last site")?;
    println!(rt; "{made} {last} {site}")
}
