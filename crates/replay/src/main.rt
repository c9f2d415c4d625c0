// Plays a recorded run: what each controller of a house was sent, line by line. Prints what each call
// answered, and an account at the end with what every controller then holds.
#![tactic(auto)]

mod account;
mod choices;
mod fault;
mod frames;
mod line;
mod play;
mod session;
mod shown;
mod votes;
mod words;

use play::Play;
use std::io::{BufRead, BufReader};

fn run(rt: &HostRuntime) -> anyhow::Result<()> {
    let mut play = Play::new();
    for line in BufReader::new(rt.alloc(), rt.stdin())?.split(rt.alloc(), b'\n') {
        let line = line?;
        play.take(rt, line.as_slice())?;
    }
    play.finish(rt)
}

fn main(rt: HostRuntime) -> anyhow::Result<()> {
    run(&rt)
}
