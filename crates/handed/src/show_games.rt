// Writes games. A game handed back is written as the number of kept positions, the two counters, and how many of all 51
// entries are blank. After a play the current position follows, or `as it came` where the game equals the one handed
// in, unused entries included. After the play of a move text the move handed back comes last.
use crate::show;
use captures::moves::BLANK;
use games::game::{Game, Outcome, Termination};
use gametexts::game::PlayedText;
use positions::position;
use squares::refusal::Refusal;
use std::io;

fn game(rt: &impl Print, g: Game) -> io::Result<()> {
    print!(rt; ", kept {}", g.len)?;
    print!(rt; ", counters {} {}", g.reversible, g.material)?;
    print!(rt; ", {} blank", show::unused(&g.kept, &position::BLANK))
}

// Where a new game is refused, the empty one stands in its place.
fn answered(rt: &impl Print, b: Result<Game, Refusal>) -> io::Result<()> {
    show::answer(rt, &b)?;
    game(rt, b.unwrap_or(Game::empty()))
}

pub(crate) fn begun(rt: &impl Print, b: Result<Game, Refusal>) -> io::Result<()> {
    answered(rt, b)?;
    println!(rt)
}

fn codes(rt: &impl Print, answers: &[u8]) -> io::Result<()> {
    for code in answers {
        print!(rt; " {code}")?;
    }
    Ok(())
}

// The game, then the lent answers as they are after the call.
pub(crate) fn begun_with(
    rt: &impl Print,
    b: Result<Game, Refusal>,
    answers: &[u8],
) -> io::Result<()> {
    answered(rt, b)?;
    print!(rt; ", answers")?;
    codes(rt, answers)?;
    println!(rt)
}

// A refused play leaves the game as it came.
fn after_play(rt: &impl Print, came: Game, r: Result<Game, Refusal>) -> io::Result<()> {
    show::answer(rt, &r)?;
    let g = r.unwrap_or(came);
    game(rt, g)?;
    if came == g {
        print!(rt; ", as it came")
    } else {
        print!(rt; ", ")?;
        show::place(rt, g.position())
    }
}

pub(crate) fn played(rt: &impl Print, came: Game, r: Result<Game, Refusal>) -> io::Result<()> {
    after_play(rt, came, r)?;
    println!(rt)
}

// The same, then the move handed back; where the text is refused, a blank one.
pub(crate) fn played_text(
    rt: &impl Print,
    came: Game,
    r: Result<PlayedText, Refusal>,
) -> io::Result<()> {
    after_play(rt, came, r.map(|p| p.game))?;
    print!(rt; ", move ")?;
    show::record(rt, r.map_or(BLANK, |p| p.mv))?;
    println!(rt)
}

fn reason(t: Termination) -> &'static str {
    match t {
        Termination::NoMoves => "no moves",
        Termination::Repetition => "repetition",
        Termination::TwentyFiveMoves => "25 moves",
        Termination::SixteenMoves => "16 moves",
        Termination::FiveMoves => "5 moves",
    }
}

fn outcome(rt: &impl Print, o: Outcome) -> io::Result<()> {
    rt.write_all(&o.result())?;
    print!(rt; " {}", reason(o.termination))
}

pub(crate) fn judged(rt: &impl Print, j: Result<Option<Outcome>, Refusal>) -> io::Result<()> {
    show::tell(rt, j, |over| match over {
        Some(o) => outcome(rt, o),
        None => print!(rt; "going"),
    })?;
    println!(rt)
}
