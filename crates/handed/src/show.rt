// Writes answers. A position is written as its FEN and its hash. One that refusal 12 turns back has no FEN: the refusal
// is written in its place.

use captures::moves::{BLANK, MoveList};
use movegen::perft::Divided;
use positions::moves::Move;
use positions::position::Position;
use squares::piece::Piece;
use squares::refusal::Refusal;
use std::fmt::Display;
use std::io;
use texts::fen;

pub(crate) fn refusal(rt: &impl Print, e: Refusal) -> io::Result<()> {
    print!(rt; "{e}")
}

// The first n bytes.
fn part(rt: &impl Print, text: &[u8], n: usize) -> io::Result<()> {
    text.get(..n).map_or(Ok(()), |first| rt.write_all(first))
}

// What `put` writes of the value, or the refusal.
pub(crate) fn tell<T, F: FnOnce(T) -> io::Result<()>>(
    rt: &impl Print,
    r: Result<T, Refusal>,
    put: F,
) -> io::Result<()>
    requires { F.IsAlwaysCallable put }
{
    match r {
        Ok(x) => put(x),
        Err(e) => refusal(rt, e),
    }
}

pub(crate) fn position(rt: &impl Print, p: Position) -> io::Result<()> {
    let mut text = [0u8; 200];
    let written = fen::fen(p, &mut text);
    tell(rt, written, |n| part(rt, &text, n))?;
    print!(rt; " {:016x}", p.hash)
}

// Whether the call was refused.
pub(crate) fn answer<T>(rt: &impl Print, a: &Result<T, Refusal>) -> io::Result<()> {
    tell(rt, a.as_ref().map_err(|e| *e), |_| print!(rt; "done"))
}

// A value, or the refusal.
pub(crate) fn value<T: Display + Drop>(rt: &impl Print, v: Result<T, Refusal>) -> io::Result<()> {
    tell(rt, v, |x| print!(rt; "{x}"))?;
    println!(rt)
}

pub(crate) fn place(rt: &impl Print, p: Result<Position, Refusal>) -> io::Result<()> {
    tell(rt, p, |q| position(rt, q))
}

pub(crate) fn placed(rt: &impl Print, p: Result<Position, Refusal>) -> io::Result<()> {
    place(rt, p)?;
    println!(rt)
}

pub(crate) fn tested(rt: &impl Print, t: Result<bool, Refusal>) -> io::Result<()> {
    value(rt, t.map(|yes| if yes { "yes" } else { "no" }))
}

pub(crate) fn standing(rt: &impl Print, s: Result<Option<Piece>, Refusal>) -> io::Result<()> {
    let what = |there: Option<Piece>| match there {
        Some(_) => "a piece",
        None => "nothing",
    };
    value(rt, s.map(what))
}

// The first square, the last square, and the set taken as a number.
pub(crate) fn record(rt: &impl Print, m: Move) -> io::Result<()> {
    print!(rt; "{} {} {}", m.from, m.to, m.captured)
}

pub(crate) fn found(rt: &impl Print, f: Result<Move, Refusal>) -> io::Result<()> {
    tell(rt, f, |m| record(rt, m))?;
    println!(rt)
}

// The answer of a writer, then the lent bytes as they are after it.
pub(crate) fn wrote(rt: &impl Print, w: Result<usize, Refusal>, out: &[u8]) -> io::Result<()> {
    tell(rt, w, |n| print!(rt; "length {n}"))?;
    print!(rt; " [")?;
    rt.write_all(out)?;
    println!(rt; "]")
}

// How many entries are as those that are not used.
pub(crate) fn unused<T: PartialEq>(entries: &[T], blank: &T) -> usize {
    entries.iter().filter(|entry| *entry == blank).count()
}

fn list(rt: &impl Print, l: MoveList) -> io::Result<()> {
    print!(rt; ", {} moves, {} blank", l.len, unused(&l.moves, &BLANK))
}

// A refused list has no moves.
pub(crate) fn listed(rt: &impl Print, l: Result<MoveList, Refusal>) -> io::Result<()> {
    answer(rt, &l)?;
    list(rt, l.unwrap_or(MoveList::new()))?;
    println!(rt)
}

// A refused count has no moves, and all counts are 0.
pub(crate) fn divided(rt: &impl Print, d: Result<Divided, Refusal>) -> io::Result<()> {
    answer(rt, &d)?;
    let (moves, zeros) = d.map_or((MoveList::new(), 256), |x| (x.list, unused(&x.counts, &0)));
    list(rt, moves)?;
    println!(rt; ", {zeros} counts 0")
}
