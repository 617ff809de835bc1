// What a line hands in. Its first byte says what:
//   p  a position
//   i  the initial position
//   m  a move record
//   w  weights
//   f  in a game: the position handed in last, for every entry
//   k  in a game: the position handed in last, for one entry
//   n  in a game: the number of kept positions and the two counters
// Weights are decimal, other numbers hexadecimal. What cannot be read counts as 0.
use crate::boards;
use captures::moves::BLANK;
use games::game::Game;
use positions::moves::Move;
use positions::position;
use positions::position::Position;
use scores::eval::Classical;
use squares::piece::Color;
use wording::{numbers, words};

// The number in the word with this index.
pub(crate) fn number(s: &[u8], index: usize) -> u64 {
    numbers::set(words::word(s, index)).unwrap_or(0)
}

pub(crate) fn small(n: u64) -> u32 {
    (n % 4294967296) as u32
}

fn weight(s: &[u8], index: usize) -> i32 {
    numbers::read_signed(words::word(s, index)).unwrap_or(0)
}

fn side(n: u64) -> Color {
    if n == 0 { Color::White } else { Color::Black }
}

// The words are the white set, the black set, the kings, the side, and the bits of the hash that are wrong.
fn placed(s: &[u8]) -> Position {
    let white = number(s, 1);
    let black = number(s, 2);
    boards::with_hash(white, black, number(s, 3), side(number(s, 4)), number(s, 5))
}

fn record(s: &[u8]) -> Move {
    Move {
        captured: number(s, 3),
        from: small(number(s, 1)),
        to: small(number(s, 2)),
    }
}

fn weights(s: &[u8]) -> Classical {
    Classical {
        man: weight(s, 1),
        king: weight(s, 2),
        advance: weight(s, 3),
        center: weight(s, 4),
        guard: weight(s, 5),
    }
}

// Puts the position into one entry of the game, where there is such an entry.
fn keep(g: &mut Game, p: Position, at: u64) {
    if let Some(kept) = g.kept.get_mut(at as usize) {
        *kept = p;
    }
}

fn set_numbers(g: &mut Game, s: &[u8]) {
    g.len = number(s, 1) as usize;
    g.reversible = small(number(s, 2));
    g.material = small(number(s, 3));
}

// What was handed in last, of each kind.
#[derive(Clone, Copy)]
pub(crate) struct Values {
    pub(crate) position: Position,
    pub(crate) mv: Move,
    pub(crate) weights: Classical,
    pub(crate) game: Game,
}

impl Values {
    // What there is before the first line.
    pub(crate) fn new() -> Values {
        Values {
            position: position::initial(),
            mv: BLANK,
            weights: Classical::default(),
            game: Game::new(),
        }
    }

    // Takes what a line hands in.
    pub(crate) fn take(&mut self, s: &[u8]) {
        match s.first() {
            Some(b'i') => self.position = position::initial(),
            Some(b'p') => self.position = placed(s),
            Some(b'm') => self.mv = record(s),
            Some(b'w') => self.weights = weights(s),
            Some(b'f') => self.game.kept = [self.position; 51],
            Some(b'k') => keep(&mut self.game, self.position, number(s, 1)),
            Some(b'n') => set_numbers(&mut self.game, s),
            _ => {}
        }
    }
}
