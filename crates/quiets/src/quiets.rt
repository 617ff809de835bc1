// Quiet moves, and the tests whether one or a jump is open, after movegen.rs of dame-rs.
//
// The rules (docs/RULES.md, "Quiet moves"):
// - A man steps to the empty square next to it, in one of its two forward directions: White up, Black down.
// - A king goes any distance along one direction, as long as the squares are empty.
// - A quiet move is legal only where the side has no jump. That is not asked here: the crate movegen asks it before it
//   makes a list.
//
// Most is computed for all pieces at once: their set is shifted by one step, and what falls on `empty` can step there.
ghost use Rattle.std.specs.Prelude.{◌≡◌, ◌<◌, ◌+◌, ◌-◌, length};
ghost use Rattle.captures.specs.Lists.{kept, list_of};
ghost use Rattle.captures.specs.Rays.{ray_of, ray_left};
ghost use Rattle.captures.specs.Walks.{up_to};
ghost use Rattle.squares.specs.Sets.{members};
ghost use Rattle.squares.specs.Directions.{direction_at};
ghost use Rattle.quiets.specs.Tests.{forward_of, steps_open, has_quiet_of, men_jump, king_open, any_in, has_capture_of};
ghost use Rattle.quiets.specs.Quiets.{
  put_all,
  men_steps,
  flight_of,
  king_quiets,
  all_quiets,
};

use captures::movegen;
use captures::moves::MoveList;
use captures::ray::Ray;
use captures::view::Sets;
use positions::moves::Move;
use squares::bitboard;
use squares::bitboard::{Bitboard, Singles};
use squares::piece::Color;

// The two directions in which a man goes forward, to the left and to the right: White goes up, Black down.
fn forward(side: Color) -> (usize, usize)
    ensures left { result.0 ≡ forward_of side }
    ensures right { result.1 ≡ forward_of side + 1 }
{
    match side {
        Color::White => (0, 1),
        Color::Black => (2, 3),
    }
}

// Whether some piece of the set can step in direction `d` onto an empty square.
#[tactic(auto, unfolding(crate::specs::Tests::steps_open))]
fn steps(set: Bitboard, empty: Bitboard, d: usize) -> bool
    ensures { result ≡ steps_open set empty d }
{
    bitboard::shift(set, d) & empty != 0
}

// Whether the side has a quiet move, also where it must capture.
pub fn has_quiet(s: Sets) -> bool
    ensures { result ≡ has_quiet_of s.men s.kings s.empty s.side }
{
    let (left, right) = forward(s.side);
    let men = steps(s.men, s.empty, left) | steps(s.men, s.empty, right);
    // An `any` over the four directions takes half as much again.
    let up = steps(s.kings, s.empty, 0) | steps(s.kings, s.empty, 1);
    let kings = up | steps(s.kings, s.empty, 2) | steps(s.kings, s.empty, 3);
    men | kings
}

// The direction opposite to `d`; up-left for a number above 3.
fn opposite(d: usize) -> usize
    ensures { result ≡ 3 - d }
{
    3usize.saturating_sub(d)
}

// Whether some man has an enemy next to it in direction `d`, with an empty square behind it. The test goes back from
// the empty squares.
#[tactic(auto, unfolding(crate::specs::Tests::men_jump))]
fn men_jump(s: Sets, d: usize) -> bool
    ensures { result ≡ men_jump s.men s.them s.empty d }
{
    let back = opposite(d);
    let over = bitboard::shift(s.empty, back) & s.them;
    bitboard::shift(over, back) & s.men != 0
}

// Whether some king has a jump. The king's own square counts as empty.
fn kings_open(s: Sets) -> bool
    ensures { result ≡ any_in (king_open s.them s.empty) (members s.kings) }
{
    Singles(s.kings).any(|at| movegen::king_open(at, s.them, s.empty | at))
}

// Whether the side has a jump.
pub fn has_capture(s: Sets) -> bool
    ensures { result ≡ has_capture_of s.men s.kings s.them s.empty }
{
    (0..4).any(|d| men_jump(s, d)) | kings_open(s)
}

// The men's steps in direction `d`, by the bit reached.
#[inline(always)]
fn put_steps(list: &mut MoveList, s: Sets, d: usize) -> Option<()>
    ensures { kept list.new result ≡ put_all list.old (men_steps s.men s.empty d) }
{
    for at in Singles(bitboard::shift(s.men, d) & s.empty) {
        list.put(Move::by_bits(bitboard::shift(at, opposite(d)), at, 0))?;
    }
    Some(())
}

// A king on the square `at`, and the empty squares over which it flies.
#[derive(Clone, Copy)]
struct Flyer {
    at: Bitboard,
    empty: Bitboard,
}

impl Flyer {
    // The squares that it reaches in direction `d`, near to far.
    #[inline(always)]
    fn flight(self, d: usize) -> Ray
        ensures { ray_left result ≡ ray_of (direction_at d) self.empty self.at }
    {
        Ray::new(self.at, d, self.empty)
    }

    // Its moves in direction `d`.
    #[inline(always)]
    fn put_flight(self, list: &mut MoveList, d: usize) -> Option<()>
        ensures { kept list.new result ≡ put_all list.old (flight_of self.at self.empty d) }
    {
        for to in self.flight(d) {
            list.put(Move::by_bits(self.at, to, 0))?;
        }
        Some(())
    }

    // Its moves, by direction. (A chain over the four rays takes a third more time.)
    #[inline(always)]
    fn put_moves(self, list: &mut MoveList) -> Option<()>
        ensures { kept list.new result ≡ put_all list.old (up_to (flight_of self.at self.empty) 4) }
    {
        for d in 0..4 {
            self.put_flight(list, d)?;
        }
        Some(())
    }

    // The number of squares that it reaches in direction `d`.
    #[inline(always)]
    fn reach(self, d: usize) -> u32
        ensures { result ≡ length (flight_of self.at self.empty d) }
    {
        self.flight(d).count() as u32
    }

    // The number of its moves. (A chain over the four rays takes a third more time.)
    fn count(self) -> u32
        ensures { result ≡ length (up_to (flight_of self.at self.empty) 4) }
    {
        let up = self.reach(0) + self.reach(1);
        let down = self.reach(2) + self.reach(3);
        up + down
    }
}

// The moves of all kings, by bit.
#[inline(always)]
fn put_kings(list: &mut MoveList, s: Sets) -> Option<()>
    ensures { kept list.new result ≡ put_all list.old (king_quiets s.kings s.empty) }
{
    for at in Singles(s.kings) {
        Flyer { at, empty: s.empty }.put_moves(list)?;
    }
    Some(())
}

// Puts all quiet moves at the end of the list: the men's by direction, then the kings'. Where there is no room for all,
// the list is filled with the first ones.
#[inline(always)]
pub fn put_quiets(list: &mut MoveList, s: Sets) -> Option<()>
    ensures { kept list.new result ≡ put_all list.old (all_quiets s.men s.kings s.empty s.side) }
{
    let (left, right) = forward(s.side);
    put_steps(list, s, left)?;
    put_steps(list, s, right)?;
    put_kings(list, s)
}

// The quiet moves in a list of their own, the first 256 of them. `quiet_count` says how many there are.
#[tactic(auto, using(crate::proofs::Filled::list_filled))]
pub fn quiet_moves(s: Sets) -> MoveList
    ensures { result ≡ list_of (all_quiets s.men s.kings s.empty s.side) }
{
    let mut list = MoveList::new();
    put_quiets(&mut list, s);
    list
}

// The number of quiet moves of all kings.
fn kings_count(s: Sets) -> u32
    ensures { result ≡ length (king_quiets s.kings s.empty) }
{
    Singles(s.kings)
        .map(|at| Flyer { at, empty: s.empty }.count())
        .sum()
}

// The number of quiet moves of the side, counted without a list.
pub fn quiet_count(s: Sets) -> u32
    ensures { result ≡ length (all_quiets s.men s.kings s.empty s.side) }
{
    let (left, right) = forward(s.side);
    let a = bitboard::count(bitboard::shift(s.men, left) & s.empty);
    let b = bitboard::count(bitboard::shift(s.men, right) & s.empty);
    let steps = a + b;
    steps + kings_count(s)
}
