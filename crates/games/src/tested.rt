// A valid game: one that passed the test of refusal 13, as `Game::tested` hands it out. The fields of `Game` are open,
// so a game that is handed in may not be valid. What needs a valid game is a method here.
ghost use Rattle.std.specs.Prelude.{◌≡◌, true, false, ◌<◌};
ghost use Rattle.movegen.specs.Lists.{after_of};
ghost use Rattle.games.specs.Games.{last_of, valid, stood, judged_of, ended};
ghost use Rattle.games.specs.Play.{moved_of, reached_of};

use crate::game::{Game, Outcome, Termination};
use crate::{endings, keeping};
use positions::moves::Move;
use positions::position::Position;
use squares::refusal::Refusal;

// The game is lent, since it is about 2 KB.
#[derive(Clone, Copy)]
pub(crate) struct Tested<'a> {
    pub(crate) game: &'a Game,
    ghost valid: { valid game.now ≡ true },
}

impl<'a> Tested<'a> {
    // The current position.
    #[tactic(auto, unfolding(crate::specs::Games::last_of))]
    pub(crate) fn last(self) -> Position
        ensures { result ≡ last_of self.entry.game.now }
    {
        let i = self.game.reversible as usize;
        self.game.kept[i]
    }

    // How often the current position is in the window, this time included. The hash is not compared: two boards may
    // share one.
    #[tactic(auto, using(crate::proofs::Valid::window_fits))]
    pub(crate) fn stood(self) -> u32
        ensures { result ≡ stood self.entry.game.now }
    {
        let p = self.last();
        self.game.kept[..self.game.len]
            .iter()
            .filter(|q| q.same(p))
            .count() as u32
    }

    // The outcome, if the game is over: the tests in order.
    #[tactic(auto, unfolding(crate::specs::Games::judged_of, crate::specs::Games::judge), using(crate::proofs::Window::last_sound))]
    pub(crate) fn judged(self) -> Option<Outcome>
        ensures { result ≡ judged_of self.entry.game.now }
    {
        let p = self.last();
        if !endings::can_move(p) {
            return Some(Outcome::win(!p.side));
        }
        if 3 <= self.stood() {
            return Some(Outcome::draw(Termination::Repetition));
        }
        if 50 <= self.game.reversible {
            return Some(Outcome::draw(Termination::TwentyFiveMoves));
        }
        endings::king_ending(p, self.game.material)
    }

    pub(crate) fn has_ended(self) -> bool
        ensures { result ≡ ended (judged_of self.entry.game.now) }
    {
        self.judged().is_some()
    }

    // Plays a move record on a game that is not over. Refusals: 17, 15.
    #[tactic(auto, using(crate::proofs::Stands::room_left))]
    pub(crate) fn moved(self, mv: Move) -> Result<Game, Refusal>
        requires { ended (judged_of self.game.now) ≡ false }
        ensures { result ≡ reached_of self.entry.game.now mv (after_of (last_of self.entry.game.now) mv) }
    {
        let q = movegen::movegen::after(self.last(), mv)?;
        Ok(self.next(mv, q))
    }

    // The game after a move that leads to `q`. After a capture or a man move no earlier position can occur again, so a
    // new window begins.
    fn next(self, mv: Move, q: Position) -> Game
        requires { self.game.now.reversible < 50 }
        ensures { result ≡ moved_of self.entry.game.now mv q }
    {
        let p = self.last();
        let material = keeping::material_after(p, mv, self.game.material);
        if mv.is_capture() | keeping::man_moves(p, mv) {
            return Game::alone(q, material);
        }
        self.game.appended(q, material)
    }
}
