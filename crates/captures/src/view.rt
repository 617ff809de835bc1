// A board as the side to move sees it, and its sets as the search for moves takes them.
ghost use Rattle.std.specs.Prelude.{◌≡◌};
ghost use Rattle.positions.specs.Boards.{board_of};
ghost use Rattle.captures.specs.View.{view_of, own_men_of, own_kings_of, empty_of, sets_of};

use positions::position::Position;
use squares::bitboard;
use squares::bitboard::Bitboard;
use squares::piece::Color;

// Its own pieces, the enemy's, the kings of both, and the side.
#[derive(Clone, Copy)]
pub struct View {
    pub us: Bitboard,
    pub them: Bitboard,
    pub kings: Bitboard,
    pub side: Color,
}

// The board of a position, as its side to move sees it.
impl From<Position> for View {
    ghost from_gives = { λ p v. v ≡ view_of (board_of p) };

    fn from(p: Position) -> View {
        View {
            us: p.pieces(p.side),
            them: p.pieces(!p.side),
            kings: p.kings,
            side: p.side,
        }
    }
}

// A `Position` has `men`, `kings` and `empty` too, made of its own fields. One function for both types would take their
// sets one by one, and be no shorter.
impl View {
    // The men of its side.
    pub fn men(self) -> Bitboard
        ensures { result ≡ own_men_of self }
    {
        bitboard::difference(self.us, self.kings)
    }

    // The kings of its side.
    pub fn own_kings(self) -> Bitboard
        ensures { result ≡ own_kings_of self }
    {
        self.us & self.kings
    }

    // The empty squares.
    pub fn empty(self) -> Bitboard
        ensures { result ≡ empty_of self }
    {
        bitboard::not(self.us | self.them)
    }
}

// What the search for moves and its tests take: the men and the kings of the side to move, the enemy's pieces, the
// empty squares, and the side. They may be any sets: what is made of them is what the formulas give.
#[derive(Clone, Copy)]
pub struct Sets {
    pub men: Bitboard,
    pub kings: Bitboard,
    pub them: Bitboard,
    pub empty: Bitboard,
    pub side: Color,
}

impl From<View> for Sets {
    ghost from_gives = { λ v s. s ≡ sets_of v };

    fn from(v: View) -> Sets {
        Sets {
            men: v.men(),
            kings: v.own_kings(),
            them: v.them,
            empty: v.empty(),
            side: v.side,
        }
    }
}
