// What is written of a game: the outcome, both counts, how often the position has occurred; at the end also the
// position and the number of its legal moves. Winner and outcome are no `Display`: no contract says when `write!` into
// a space answers `Ok`.
#![tactic(auto, using(texts::proofs::Overs::over_append, texts::proofs::Overs::over_none), unfolding(texts::specs::Lent::over, crate::specs::States::plies_text, crate::specs::States::state_text, crate::specs::States::moves_word, crate::specs::States::end_text))]

ghost use Rattle.std.specs.Prelude.{◌≡◌};
ghost use Rattle.texts.specs.Lent.{over};
ghost use Rattle.games.specs.Play.{outcome_of};
ghost use Rattle.replies.specs.Answers.{ok, on_ok};
ghost use Rattle.replies.specs.States.{winner_word, outcome_word, judged_word, plies_text, state_text, stand_word, moves_word, end_text};

use crate::answers;
use captures::moves::{MAX_MOVES, MoveList};
use games::game::{Game, Outcome, Termination};
use positions::position::Position;
use squares::piece::Color;
use squares::refusal::Refusal;
use texts::space::Space;
use wording::output;

fn put_winner(out: &mut Space, w: Option<Color>)
    ensures { out.new ≡ over (winner_word w) out.old }
{
    match w {
        Some(Color::White) => out.put(b"white"),
        Some(Color::Black) => out.put(b"black"),
        None => {}
    }
}

fn put_outcome(out: &mut Space, o: Outcome)
    ensures { out.new ≡ over (outcome_word o) out.old }
{
    match o.termination {
        Termination::NoMoves => put_winner(out, o.winner),
        Termination::Repetition => out.put(b"draw3"),
        Termination::TwentyFiveMoves => out.put(b"draw50"),
        Termination::SixteenMoves => out.put(b"draw32"),
        Termination::FiveMoves => out.put(b"draw10"),
    }
}

pub fn put_judged(out: &mut Space, j: Result<Option<Outcome>, Refusal>)
    ensures { out.new ≡ over (judged_word j) out.old }
{
    match j {
        Ok(Some(o)) => put_outcome(out, o),
        Ok(None) => out.put(b"none"),
        Err(_) => {}
    }
}

fn put_verdict(out: &mut Space, g: Game)
    ensures { out.new ≡ over (judged_word (outcome_of g)) out.old }
{
    put_judged(out, g.outcome());
}

// `ok` and the outcome of a game, or the refusal.
pub fn tell_outcome(out: &mut Space, g: Result<Game, Refusal>)
    ensures { out.new ≡ over (on_ok g (λ h. ok (judged_word (outcome_of h)))) out.old }
{
    answers::tell(out, g, put_verdict);
}

// Both counts, a mark before each.
fn put_plies(out: &mut Space, g: Game, mark: u8)
    ensures { out.new ≡ over (plies_text mark g) out.old }
{
    out.put_byte(mark);
    answers::put_count(out, g.reversible_plies());
    out.put_byte(mark);
    output::put_decimal(out, g.material as u64);
}

// The outcome, both counts and how often the position has stood, a mark before each.
pub fn put_state(out: &mut Space, g: Game, mark: u8)
    ensures { out.new ≡ over (state_text mark g) out.old }
{
    out.put_byte(mark);
    put_judged(out, g.outcome());
    put_plies(out, g, mark);
    out.put_byte(mark);
    answers::put_count(out, g.repetitions());
}

// The position, or nothing where it is refused. (`answers::put_count` does so with a number. One function for both
// would be longer than the two.)
fn put_stand(out: &mut Space, p: Result<Position, Refusal>)
    ensures { out.new ≡ over (stand_word p) out.old }
{
    if let Ok(q) = p {
        answers::put_fen(out, q);
    }
}

// How many moves there are, or the refusal: more than 256 are not counted.
fn put_listed(out: &mut Space, l: Result<MoveList, Refusal>)
    ensures { out.new ≡ over (moves_word l) out.old }
{
    match l {
        Ok(list) => output::put_decimal(out, list.len as u64),
        Err(e) => output::put_number(out, e),
    }
}

// What is written of the game after the last play.
pub fn put_end(out: &mut Space, g: Game)
    ensures { out.new ≡ over (end_text g) out.old }
{
    out.put(b" | ");
    put_stand(out, g.position());
    put_state(out, g, b' ');
    out.put_byte(b' ');
    put_listed(out, g.legal_moves(MAX_MOVES));
}
