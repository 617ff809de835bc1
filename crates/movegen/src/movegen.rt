// The legal moves of a position (docs/RULES.md, "Legal moves"), ported from movegen.rs.
//
// - Who can capture must capture, and only captures that take the largest number of pieces are legal.
// - A man steps one square forward, but jumps in all four directions: over a neighbour to the square just beyond it.
// - A king flies: it goes any distance over empty squares, and it may do so both before and after the enemy it jumps.
// - One jump takes one enemy and lands on an empty square. The square that the mover left counts as empty.
// - Taken pieces are lifted when the whole move is done. Until then they are in the way, and cannot be jumped again.
// - A man is promoted only if its move ends on the promotion row; to pass through the row is not enough.
// - Captures with the same first square, last square and set of taken pieces are one move.
//
// The list has a fixed order (docs/RULES.md, "Order of the list"):
// - Captures: first the men by rising bit, then the kings. For each piece the directions are tried in the order -6,
//   -5, 5, 6 (up-left, up-right, down-left, down-right), and a king's near landings before its far ones. Each path is
//   followed to its end before the next is tried. A move that was found before is left out.
// - Quiet moves: all men's steps in the first forward direction by rising bit, then those in the second. Then the
//   kings by rising bit, each by direction and distance.
ghost use Rattle.std.specs.Prelude.{◌≡◌};
ghost use Rattle.movegen.specs.Generate.{generate_of};
ghost use Rattle.movegen.specs.Lists.{view_at, legal_moves_of, has_captures_of, has_quiet_moves_of, after_of};

use crate::moves::{MAX_MOVES, MoveList};
use crate::position;
use captures::pieces::{ROOM, all_captures};
use captures::view::{Sets, View};
use positions::moves::Move;
use positions::position::Position;
use squares::bitboard;
use squares::refusal::{Guard, Refusal};

// A side with more kings than this skips the short list of captures.
const FEW_KINGS: u32 = 3;

// All legal moves, where there are at most 256. A test on sets says first whether a jump is open; if so, only captures
// are listed. The short list of captures is tried first, and the long one where the short one is too small. Many kings
// often have more captures than the short list holds, so for them the long one is used at once.
pub(crate) fn generate(v: View) -> Option<MoveList>
    ensures { result ≡ generate_of v }
{
    let sets = Sets::from(v);
    if quiets::quiets::has_capture(sets) {
        if bitboard::count(sets.kings) <= FEW_KINGS {
            let few = all_captures::<ROOM>(sets);
            // Not `or_else` on the list, which copies it: a list would take a quarter more instructions.
            if few.len.is_some() {
                return few.whole();
            }
        }
        return all_captures::<MAX_MOVES>(sets).whole();
    }
    let mut list = MoveList::new();
    quiets::quiets::put_quiets(&mut list, sets)?;
    Some(list)
}

// What the side to move sees of a position. Refusal: 12.
#[tactic(auto, unfolding(crate::specs::Lists::view_at))]
pub(crate) fn view(p: Position) -> Result<View, Refusal>
    ensures { result ≡ view_at p }
{
    Refusal::BadPosition.unless(p.sound())?;
    Ok(View::from(p))
}

// All legal moves, at most `limit` of them. Refusals: 12, 10, 17.
#[tactic(auto, unfolding(crate::specs::Lists::legal_moves_of, crate::specs::Lists::view_at))]
pub fn legal_moves(p: Position, limit: usize) -> Result<MoveList, Refusal>
    ensures { result ≡ legal_moves_of p limit }
{
    let v = view(p)?;
    Refusal::BeyondLimit.unless(limit <= MAX_MOVES)?;
    let list = generate(v).ok_or(Refusal::TooManyMoves)?;
    Refusal::TooManyMoves.unless(list.len <= limit)?;
    Ok(list)
}

// Whether the side to move has a capture. Refusal: 12.
#[tactic(auto, unfolding(crate::specs::Lists::has_captures_of, crate::specs::Lists::view_at))]
pub fn has_captures(p: Position) -> Result<bool, Refusal>
    ensures { result ≡ has_captures_of p }
{
    Ok(quiets::quiets::has_capture(Sets::from(view(p)?)))
}

// Whether the side to move has a quiet move, even where it must capture. Refusal: 12.
#[tactic(auto, unfolding(crate::specs::Lists::has_quiet_moves_of, crate::specs::Lists::view_at))]
pub fn has_quiet_moves(p: Position) -> Result<bool, Refusal>
    ensures { result ≡ has_quiet_moves_of p }
{
    Ok(quiets::quiets::has_quiet(Sets::from(view(p)?)))
}

// The position after a legal move, with its hash. Refusals: 12, 11, 17, 15.
#[tactic(auto, unfolding(crate::specs::Lists::after_of, crate::specs::Lists::view_at))]
pub fn after(p: Position, m: Move) -> Result<Position, Refusal>
    ensures { result ≡ after_of p m }
{
    let v = view(p)?;
    Refusal::NoSuchSquare.unless(m.on_board())?;
    let list = generate(v).ok_or(Refusal::TooManyMoves)?;
    Refusal::NoMoveFits.unless(list.contains(m))?;
    Ok(position::play(p, m))
}
