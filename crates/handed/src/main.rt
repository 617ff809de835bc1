// Hands in values that no text can make: positions, move records, limits, weights, lent space and games, most of them
// with one fault or two. The input says line by line what is handed in (`given`) and what is asked (`asked`). Each line
// of the output names the entry and the case, then gives the refusal's number and square, or what came back.
// scripts/handed writes the files stdin and stdout. Its answers follow docs/RULES.md; it asks no program.
#![tactic(auto)]

mod asked;
mod boards;
mod given;
mod show;
mod show_games;

use std::io;
use std::io::Read;

fn main(rt: HostRuntime) -> io::Result<()> {
    let mut text = Vec::new(rt.alloc());
    rt.reader().read_to_end(&mut text)?;
    asked::lines(&rt, &text)
}
