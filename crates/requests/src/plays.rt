// The requests about games: `play FEN TEXT ..`, `record FEN FIRST,LAST,SET ..` and `outcome FEN`.
//
// `play` and `record` begin a game from the position and play every word in order. A text is a move text. A record is
// the numbers of a move's first and last square and its set in hexadecimal. `play` writes
// ` HUB/OUTCOME/COUNT1/COUNT2/TIMES` for each text, or ` !N` where it is refused; `record` writes ` N` for each record,
// 0 where it is accepted. Both end with ` | FEN OUTCOME COUNT1 COUNT2 TIMES MOVES`.
ghost use Rattle.std.specs.Prelude.{◌≡◌, ℕ, List, Result};
ghost use Rattle.squares.specs.declared.refusal.Refusal.{Refusal};
ghost use Rattle.games.specs.declared.game.Game.{Game};
ghost use Rattle.gametexts.specs.declared.game.PlayedText.{PlayedText};
ghost use Rattle.texts.specs.Lent.{over};
ghost use Rattle.gametexts.specs.Texts.{played_on};
ghost use Rattle.games.specs.Play.{new_of};
ghost use Rattle.games.specs.Demand3.{game_of};
ghost use Rattle.requests.specs.Plays.{record_of, is_record_of, all_records, words_of, play_text_of, text_told, play_record_of, record_told, game_text, game_request, play_request, record_request, outcome_request};

use crate::asked::Question;
use crate::reading;
use games::game::Game;
use gametexts::game::PlayedText;
use positions::moves::Move;
use positions::position::Position;
use replies::{answers, states};
use squares::refusal;
use squares::refusal::Refusal;
use texts::bytes;
use texts::space::Space;
use wording::output::Flaw;
use wording::words::Words;
use wording::{numbers, output};

// How the plays of a game are given: how a word is played, and what is written of it.
trait PlayForm {
    ghost played: { Game → List ℕ → Result PlayedText Refusal };

    ghost told: { Result PlayedText Refusal → List ℕ };

    fn play(g: Game, word: &[u8]) -> Result<PlayedText, Refusal>
        ensures { result ≡ played g word.now };

    fn tell(out: &mut Space, r: Result<PlayedText, Refusal>)
        ensures { out.new ≡ over (told r) out.old };
}

// The numbers may be any of 32 bits: which of them are squares is the game's to say.
#[tactic(auto, unfolding(crate::specs::Plays::record_of))]
fn read_record(word: &[u8]) -> Option<Move>
    ensures { result ≡ record_of word.now }
{
    let rest = bytes::after_first(word, b',');
    let from = numbers::unsigned(bytes::up_to(word, b','))?;
    let to = numbers::unsigned(bytes::up_to(rest, b','))?;
    let captured = numbers::set(bytes::after_first(rest, b','))?;
    Some(Move { captured, from, to })
}

#[tactic(auto, unfolding(crate::specs::Plays::is_record_of))]
fn is_record(word: &[u8]) -> bool
    ensures { result ≡ is_record_of word.now }
{
    read_record(word).is_some()
}

fn all_records(s: &[u8]) -> bool
    ensures { result ≡ all_records (words_of s.now) }
{
    Words(s).all(is_record)
}

// The plays are move texts. The type is not private, since the proof of `Question::play`, which names it, stands with
// `Question`.
pub(crate) struct Texts;

impl PlayForm for Texts {
    ghost played = { play_text_of };

    ghost told = { text_told };

    fn play(g: Game, word: &[u8]) -> Result<PlayedText, Refusal> {
        reading::unescaped(word, |text| gametexts::game::play_str(g, text))
    }

    // The move and the game after it, or `!` and the refusal's number.
    #[tactic(auto, using(texts::proofs::Overs::over_append), unfolding(texts::specs::Lent::over, crate::specs::Plays::text_told))]
    fn tell(out: &mut Space, r: Result<PlayedText, Refusal>) {
        out.put_byte(b' ');
        match r {
            Ok(played) => {
                answers::put_move(out, played.mv);
                states::put_state(out, played.game, b'/');
            }
            Err(e) => output::put_number(out, e),
        }
    }
}

// The plays are records. The type is not private, as `Texts`.
pub(crate) struct Records;

impl PlayForm for Records {
    ghost played = { play_record_of };

    ghost told = { record_told };

    // A word that is no record is not played. `record` answers a line with such a word before it plays any.
    #[tactic(auto, unfolding(crate::specs::Plays::play_record_of))]
    fn play(g: Game, word: &[u8]) -> Result<PlayedText, Refusal> {
        let mv = read_record(word).ok_or(Refusal::BadMoveText)?;
        let game = g.play(mv)?;
        Ok(PlayedText { game, mv })
    }

    // The answer's number.
    #[tactic(auto, using(texts::proofs::Overs::over_append), unfolding(texts::specs::Lent::over, crate::specs::Plays::record_told))]
    fn tell(out: &mut Space, r: Result<PlayedText, Refusal>) {
        out.put_byte(b' ');
        output::put_decimal(out, refusal::answer_number(&r) as u64);
    }
}

// The game that is played on: a refused word changes nothing.
fn played_on(g: Game, r: Result<PlayedText, Refusal>) -> Game
    ensures { result ≡ played_on g r }
{
    r.map_or(g, |played| played.game)
}

// Plays the words in order; each play gets the game that the plays before it led to.
#[tactic(auto, using(crate::proofs::PlayLaws::game_end))]
fn play_words<F: PlayForm>(start: Game, s: &[u8], out: &mut Space)
    ensures { out.new ≡ over (game_text F.played F.told start (words_of s.now)) out.old }
{
    let mut g = start;
    for word in Words(s) {
        let r = F::play(g, word);
        F::tell(out, r);
        g = played_on(g, r);
    }
    states::put_end(out, g);
}

// The game that begins with a position. Every position that was read is accepted, so the empty game does not come.
fn new_game(p: Position) -> Game
    ensures { result ≡ game_of (new_of p) }
{
    Game::from_position(p).unwrap_or(Game::empty())
}

impl<'a> Question<'a> {
    // Begins a game and plays the words. This is no `answers::tell`: that writes `ok` and a space, but here each play
    // writes the space before its own answer.
    #[tactic(auto, using(texts::proofs::Overs::over_append), unfolding(texts::specs::Lent::over, crate::specs::Plays::game_answer))]
    fn play_game<F: PlayForm>(self, out: &mut Space)
        ensures { out.new ≡ over (game_request F.played F.told self.entry.position self.entry.rest.now) out.old }
    {
        if let Some(q) = answers::found(out, self.position) {
            out.put(b"ok");
            play_words::<F>(new_game(q), self.rest, out);
        }
    }

    pub(crate) fn play(self, out: &mut Space)
        ensures { out.new ≡ over (play_request self.entry.position self.entry.rest.now) out.old }
    {
        self.play_game::<Texts>(out);
    }

    // Every record must be readable before one is played. A refused position is answered before any record is read.
    pub(crate) fn record(self, out: &mut Space)
        ensures { out.new ≡ over (record_request self.entry.position self.entry.rest.now) out.old }
    {
        if self.position.is_ok() && !all_records(self.rest) {
            output::put_bad(out, Flaw::Number);
        } else {
            self.play_game::<Records>(out);
        }
    }
}

// The outcome of a new game.
pub(crate) fn outcome(p: Result<Position, Refusal>, out: &mut Space)
    ensures { out.new ≡ over (outcome_request p) out.old }
{
    states::tell_outcome(out, p.map(new_game));
}
