// The squares ahead in one direction, near to far. A king flies over them and lands on them.
ghost use Rattle.std.specs.Prelude.{◌≡◌};
ghost use Rattle.std.specs.Iterator.{YieldsFirst, item_count};
ghost use Rattle.squares.specs.Directions.{direction_at};
ghost use Rattle.captures.specs.Rays.{ray_of, ray_left};

use squares::bitboard;
use squares::bitboard::Bitboard;

// The squares of `within` that follow a square in one direction, up to the first that is not in it, each as a set of
// one bit: `for land in Ray::new(from, d, empty)`. A set of several bits moves as one.
#[derive(Clone, Copy)]
pub struct Ray {
    // The next square; nothing where none is left.
    next: Bitboard,
    // The direction, an index of DIRECTIONS.
    d: usize,
    within: Bitboard,
}

impl Ray {
    pub fn new(from: Bitboard, d: usize, within: Bitboard) -> Ray
        ensures { ray_left result ≡ ray_of (direction_at d) within from }
    {
        Ray {
            next: bitboard::shift(from, d) & within,
            d,
            within,
        }
    }
}

impl Iterator for Ray {
    type Item = Bitboard;

    ghost next_gives = { YieldsFirst ray_left };

    ghost remaining = { item_count ray_left };

    #[tactic(auto, using(crate::proofs::Rays::none_ahead, crate::proofs::Rays::first_ahead, crate::proofs::Rays::fewer_ahead))]
    fn next(&mut self) -> Option<Bitboard> {
        let square = self.next;
        if square == 0 {
            return None;
        }
        self.next = bitboard::shift(square, self.d) & self.within;
        Some(square)
    }
}
