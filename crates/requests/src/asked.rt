// The requests about a position that are more than one call of `answers`. `Question` has those that get a position and
// the rest of the line.
//
// The position that a request is about comes as what was read of its text. If that is a refusal, it is the answer.
ghost use Rattle.std.specs.Prelude.{◌≡◌};
ghost use Rattle.texts.specs.Lent.{over};
ghost use Rattle.wording.specs.Words.{first_word, after_word};
ghost use Rattle.replies.specs.Answers.{placed_answer};
ghost use Rattle.requests.specs.Reading.{position_in};
ghost use Rattle.requests.specs.Requests.{first_position};
ghost use Rattle.requests.specs.Asked.{on_read, SaysRead, side_of, parts_request, moves_request, atmost_request, parse_request, after_request, perft_request, divide_request, eval_request, weights_of, evalw_request, flip_request, caps_request, quiet_request};

use crate::reading;
use positions::position;
use positions::position::Position;
use replies::answers;
use scores::eval::Classical;
use squares::piece::Color;
use squares::refusal::{Guard, Refusal};
use texts::space::Space;
use wording::output::Flaw;
use wording::{numbers, output, words};

// What `put` writes of what was read of a line, or what of it cannot be read. This is no `answers::found`, whose error
// is a refusal: here it is a `Flaw`.
pub(crate) fn answer_read<T, F: FnOnce(&mut Space, T)>(out: &mut Space, r: Result<T, Flaw>, put: F)
    requires { F.IsAlwaysCallable put }
    ensures { SaysRead (F.post put) r out.old out.new }
{
    match r {
        Ok(x) => put(out, x),
        Err(flaw) => output::put_bad(out, flaw),
    }
}

// The legal moves, if there are no more than the limit.
pub(crate) fn moves(p: Result<Position, Refusal>, limit: usize, out: &mut Space)
    ensures { out.new ≡ over (moves_request p limit) out.old }
{
    answers::tell_list(out, p.and_then(|q| movegen::movegen::legal_moves(q, limit)));
}

// The limit, which is the first word and is read before the position.
#[tactic(auto, unfolding(crate::specs::Asked::atmost_request))]
fn read_limit(arg: &[u8]) -> Result<u32, Flaw>
    ensures { on_read result (λ n. moves_request (position_in (after_word arg.now)) n) ≡ atmost_request arg.now }
{
    numbers::unsigned(words::first(arg)).ok_or(Flaw::Number)
}

pub(crate) fn atmost(arg: &[u8], out: &mut Space)
    ensures { out.new ≡ over (atmost_request arg.now) out.old }
{
    answer_read(out, read_limit(arg), |to, n| {
        moves(reading::position(words::rest(arg)), n as usize, to)
    });
}

// A question about a position: what was read of the first word, and what comes after that word.
#[derive(Clone, Copy)]
pub(crate) struct Question<'a> {
    pub(crate) position: Result<Position, Refusal>,
    pub(crate) rest: &'a [u8],
}

impl<'a> Question<'a> {
    #[tactic(auto, unfolding(crate::specs::Requests::first_position))]
    pub(crate) fn read(arg: &'a [u8]) -> Question<'a>
        ensures position { result.position ≡ first_position arg.now }
        ensures rest { result.rest.now ≡ after_word arg.now }
    {
        Question {
            position: reading::position(words::first(arg)),
            rest: words::rest(arg),
        }
    }

    // The rest is a move's text.
    pub(crate) fn parse(self, out: &mut Space)
        ensures { out.new ≡ over (parse_request self.entry.position self.entry.rest.now) out.old }
    {
        answers::tell_move(
            out,
            self.position
                .and_then(|q| reading::listed_move(q, self.rest)),
        );
    }

    pub(crate) fn after(self, out: &mut Space)
        ensures { out.new ≡ over (after_request self.entry.position self.entry.rest.now) out.old }
    {
        answers::tell_after(
            out,
            self.position.and_then(|q| movegen::movegen::after(
                q,
                reading::listed_move(q, self.rest)?,
            )),
        );
    }

    // The rest is a depth. A refused position is answered before the depth is read. (One function for this and `divide`
    // would take what is counted as a closure, and be longer than the two.)
    #[tactic(auto, using(texts::proofs::Overs::over_none))]
    pub(crate) fn perft(self, out: &mut Space)
        ensures { out.new ≡ over (perft_request self.entry.position self.entry.rest.now) out.old }
    {
        let Some(q) = answers::found(out, self.position) else {
            return;
        };
        match numbers::unsigned(self.rest) {
            Some(n) => answers::tell_counted(out, movegen::perft::perft(q, n)),
            None => output::put_bad(out, Flaw::Number),
        }
    }

    #[tactic(auto, using(texts::proofs::Overs::over_none))]
    pub(crate) fn divide(self, out: &mut Space)
        ensures { out.new ≡ over (divide_request self.entry.position self.entry.rest.now) out.old }
    {
        let Some(q) = answers::found(out, self.position) else {
            return;
        };
        match numbers::unsigned(self.rest) {
            Some(n) => answers::tell_divided(out, movegen::perft::divide(q, n)),
            None => output::put_bad(out, Flaw::Number),
        }
    }
}

// The score with these weights.
pub(crate) fn eval(p: Result<Position, Refusal>, weights: Classical, out: &mut Space)
    ensures { out.new ≡ over (eval_request p weights) out.old }
{
    answers::tell_scored(out, p.and_then(|q| weights.evaluate(q)));
}

#[tactic(auto, unfolding(crate::specs::Asked::weights_of))]
fn read_weights(arg: &[u8]) -> Option<Classical>
    ensures { result ≡ weights_of arg.now }
{
    let man = numbers::read_signed(words::word(arg, 1))?;
    let king = numbers::read_signed(words::word(arg, 2))?;
    let advance = numbers::read_signed(words::word(arg, 3))?;
    let center = numbers::read_signed(words::word(arg, 4))?;
    let guard = numbers::read_signed(words::word(arg, 5))?;
    Some(Classical {
        man,
        king,
        advance,
        center,
        guard,
    })
}

// The five weights after the position, or why they cannot be read. They are read before it.
#[tactic(auto, unfolding(crate::specs::Asked::evalw_request))]
fn read_evalw(arg: &[u8]) -> Result<Classical, Flaw>
    ensures { on_read result (λ w. eval_request (position_in (first_word arg.now)) w) ≡ evalw_request arg.now }
{
    Flaw::Words.unless(words::blanks(arg) == 5)?;
    read_weights(arg).ok_or(Flaw::Number)
}

pub(crate) fn evalw(arg: &[u8], out: &mut Space)
    ensures { out.new ≡ over (evalw_request arg.now) out.old }
{
    answer_read(out, read_evalw(arg), |to, w| {
        eval(reading::position(words::first(arg)), w, to)
    });
}

pub(crate) fn flip(p: Result<Position, Refusal>, out: &mut Space)
    ensures { out.new ≡ over (flip_request p) out.old }
{
    answers::tell_fen(out, p.and_then(Position::flipped));
}

pub(crate) fn caps(p: Result<Position, Refusal>, out: &mut Space)
    ensures { out.new ≡ over (caps_request p) out.old }
{
    answers::tell_tested(out, p.and_then(movegen::movegen::has_captures));
}

pub(crate) fn quiet(p: Result<Position, Refusal>, out: &mut Space)
    ensures { out.new ≡ over (quiet_request p) out.old }
{
    answers::tell_tested(out, p.and_then(movegen::movegen::has_quiet_moves));
}

// The side that a word means: W or B alone. (`side` of `texts::fen` takes small letters too. One function for both
// would take the reader of the letter, and be no shorter.)
#[tactic(auto, unfolding(crate::specs::Asked::side_of))]
fn side(word: &[u8]) -> Result<Color, Refusal>
    ensures { result ≡ side_of word.now }
{
    match word {
        [letter] => Color::from_char(*letter),
        _ => Err(Refusal::NoSide),
    }
}

// The position of three sets and a side, or why they cannot be read.
#[tactic(auto, unfolding(crate::specs::Asked::parts_request, crate::specs::Asked::sets_answer))]
fn read_parts(arg: &[u8]) -> Result<Result<Position, Refusal>, Flaw>
    ensures { on_read result placed_answer ≡ parts_request arg.now }
{
    Flaw::Words.unless(words::blanks(arg) == 3)?;
    let white = numbers::set(words::word(arg, 0)).ok_or(Flaw::Number)?;
    let black = numbers::set(words::word(arg, 1)).ok_or(Flaw::Number)?;
    let kings = numbers::set(words::word(arg, 2)).ok_or(Flaw::Number)?;
    let color = side(words::word(arg, 3)).map_err(|_| Flaw::Side)?;
    Ok(position::from_parts(white, black, kings, color))
}

pub(crate) fn parts(arg: &[u8], out: &mut Space)
    ensures { out.new ≡ over (parts_request arg.now) out.old }
{
    answer_read(out, read_parts(arg), answers::tell_fen);
}
