// Writes outputs of SplitMix64, the keys of the pieces and of the side, and number, bit, row and file of each square
// (docs/RULES.md, "The board" and "Keys and hash"). The output must equal the file stdout beside src/, which
// scripts/vectors makes from published vectors and from the answers of the Rust.
#![tactic(auto)]

use squares::piece::{Color, PieceKind};
use squares::refusal::Refusal;
use squares::{square, zobrist};
use std::io;

fn hex_line(rt: &impl Print, n: u64) -> io::Result<()> {
    println!(rt; "{n:016x}")
}

// The first outputs from a start value.
fn draws(rt: &impl Print, start: u64, count: u32) -> io::Result<()> {
    let mut state = start;
    for _ in 0..count {
        let drawn = zobrist::splitmix64(state);
        hex_line(rt, drawn.output)?;
        state = drawn.state;
    }
    Ok(())
}

// The keys of one kind of piece, square by square.
fn keys(rt: &impl Print, color: Color, kind: PieceKind) -> io::Result<()> {
    for n in 1..=50 {
        hex_line(rt, zobrist::piece_key(color, kind, n))?;
    }
    Ok(())
}

// A number, or `!` and the refusal's number.
fn show(rt: &impl Print, n: Result<u32, Refusal>) -> io::Result<()> {
    match n {
        Ok(x) => print!(rt; "{x}"),
        Err(e) => print!(rt; "!{}", e.number()),
    }
}

// Number, bit, row and file.
fn square_line(rt: &impl Print, n: u32) -> io::Result<()> {
    show(rt, square::new(n))?;
    print!(rt; " ")?;
    show(rt, square::bit(n))?;
    print!(rt; " ")?;
    show(rt, square::row(n))?;
    print!(rt; " ")?;
    show(rt, square::file(n))?;
    println!(rt)
}

// Every square, and the numbers 0 and 51, which are no squares.
fn square_lines(rt: &impl Print) -> io::Result<()> {
    for n in 0..=51 {
        square_line(rt, n)?;
    }
    Ok(())
}

fn main(rt: HostRuntime) -> io::Result<()> {
    draws(&rt, 0, 4)?;
    draws(&rt, 1234567, 2)?;
    keys(&rt, Color::White, PieceKind::Man)?;
    keys(&rt, Color::Black, PieceKind::Man)?;
    keys(&rt, Color::White, PieceKind::King)?;
    keys(&rt, Color::Black, PieceKind::King)?;
    hex_line(&rt, zobrist::side_key())?;
    square_lines(&rt)
}
