// The captures of all pieces, men by bit, then kings by bit, in a list with room for `N` moves. A short list is quicker
// to make. Where it has no room for all captures it has no length, and the caller takes a longer one.
ghost use Rattle.std.specs.Prelude.{◌≡◌};
ghost use Rattle.captures.specs.Men.{men_captures_of};
ghost use Rattle.captures.specs.Kings.{kings_captures_of};
ghost use Rattle.captures.specs.All.{all_captures_of};

use crate::movegen::{Came, Captures, king_open, man_open};
use crate::view::Sets;
use squares::bitboard::{Bitboard, Singles};

// Most boards have no more captures than this.
pub const ROOM: usize = 14;

// The captures of all men, by bit. The first square of the moving man counts as empty. A man without a jump is skipped:
// it would record nothing.
pub fn men_captures<const N: usize>(s: &mut Captures<N>, men: Bitboard, empty: Bitboard)
    ensures { s.new ≡ men_captures_of s.old men empty }
{
    for at in Singles(men) {
        s.set_onto(at, empty);
        if man_open(at, s.them, s.empty) {
            s.man(at, 0);
        }
    }
}

// The captures of all kings, by bit. Test and search are not the men's, and nothing else is left to share.
pub fn kings_captures<const N: usize>(s: &mut Captures<N>, kings: Bitboard, empty: Bitboard)
    ensures { s.new ≡ kings_captures_of s.old kings empty }
{
    for at in Singles(kings) {
        s.set_onto(at, empty);
        if king_open(at, s.them, s.empty) {
            s.king(at, 0, Came::Nowhere);
        }
    }
}

// The longest captures of all pieces. A list that has no room for them has no length.
pub fn all_captures<const N: usize>(sets: Sets) -> Captures<N>
    ensures { result ≡ all_captures_of N sets.men sets.kings sets.them sets.empty }
{
    let mut s = Captures::new(sets.them, sets.empty);
    men_captures(&mut s, sets.men, sets.empty);
    kings_captures(&mut s, sets.kings, sets.empty);
    s
}
