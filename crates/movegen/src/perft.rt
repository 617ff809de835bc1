// Depth counts, also called perft (docs/RULES.md, "Depth counts"), ported from perft.rs.
//
// The count of depth n is the number of ways to play n plies. Depth 0 gives 1; otherwise the counts of depth n - 1
// after each legal move are added up. A move that can be jumped in several ways is counted once. Draws are not looked
// at: a path ends early only where the side to move has no move, and then it does not count.
//
// The counts are a test of the rules of moves: they are published for several boards, and a wrong list of moves on any
// board of the tree nearly always changes them. `divide` gives the count after each first move, so that an error can
// be followed down to the board where it arises.
//
// A board whose list is needed must have at most 256 moves, else the count is refused 17. The plies work on a `View`,
// so no hash is computed on the way.
ghost use Rattle.std.specs.Prelude.{◌≡◌, ◌-◌, ◌≤◌};
ghost use Rattle.positions.specs.Acceptance.{Accepted};
ghost use Rattle.movegen.specs.Generate.{seen, capture_moves_of};
ghost use Rattle.movegen.specs.LastPly.{limited_count, listed_count, last_ply_of};
ghost use Rattle.movegen.specs.Counts.{depth_count, perft_of, divided_of, divide_of};

use crate::moves::{MAX_MOVES, MoveList};
use crate::{movegen, playing};
use captures::pieces::{ROOM, all_captures};
use captures::view::{Sets, View};
use positions::position::Position;
use squares::refusal::{Guard, Refusal};

// The largest depth: 256^7 still fits in 64 bits.
pub const MAX_DEPTH: u32 = 7;

// The first moves and the count after each; unused counts are 0. Callers are promised the list as `legal_moves` hands
// it out, so the counts are beside it.
#[derive(Clone, Copy)]
pub struct Divided {
    pub list: MoveList,
    pub counts: [u64; 256],
}

// A number of moves, or 17 where it is above 256.
#[tactic(auto, unfolding(crate::specs::LastPly::limited_count))]
fn limited(moves: u32) -> Result<u64, Refusal>
    ensures { result ≡ limited_count moves }
{
    Refusal::TooManyMoves.unless(moves as usize <= MAX_MOVES)?;
    Ok(moves as u64)
}

// The number of captures, or 17 where there are more than 256: from a short list, or from the long one where the short
// one is too small. `generate` tries the two lists by itself: it needs the list, and handing one on would copy it.
fn captures_count(s: Sets) -> Result<u64, Refusal>
    ensures { result ≡ listed_count (capture_moves_of s.men s.kings s.them s.empty) }
{
    let few = all_captures::<ROOM>(s).len;
    let len = few.or_else(|| all_captures::<MAX_MOVES>(s).len);
    Ok(len.ok_or(Refusal::TooManyMoves)? as u64)
}

// The number of legal moves: the last ply of a count needs no more. Where no jump is open no list is made, and the long
// list is made only where the short one is too small.
fn last_ply(v: View) -> Result<u64, Refusal>
    ensures { result ≡ last_ply_of v }
{
    let sets = Sets::from(v);
    if quiets::quiets::has_capture(sets) {
        captures_count(sets)
    } else {
        limited(quiets::quiets::quiet_count(sets))
    }
}

// The number of ways to play `depth` plies.
fn count(v: View, depth: u32) -> Result<u64, Refusal>
    requires { Accepted (seen v) × (depth ≤ 7) }
    ensures { result ≡ depth_count depth (seen v) }
{
    if depth == 0 {
        return Ok(1);
    }
    if depth == 1 {
        return last_ply(v);
    }
    // Not `ok_or`, which copies the list: counts of depth 7 would take a fifth more instructions.
    let Some(list) = movegen::generate(v) else {
        return Err(Refusal::TooManyMoves);
    };
    // A `try_fold` would have the same step in a closure.
    let mut sum: u64 = 0;
    for &mv in list.entries() {
        sum += count(playing::next(v, mv), depth - 1)?;
    }
    Ok(sum)
}

// The depth count of a position. Refusals: 12, 10, 17.
#[tactic(auto, unfolding(crate::specs::Counts::perft_of, crate::specs::Lists::view_at))]
pub fn perft(p: Position, depth: u32) -> Result<u64, Refusal>
    ensures { result ≡ perft_of p depth }
{
    let v = movegen::view(p)?;
    Refusal::BeyondLimit.unless(depth <= MAX_DEPTH)?;
    count(v, depth)
}

// The count after each first move, with `plies` plies still to play.
fn split(v: View, plies: u32) -> Result<Divided, Refusal>
    requires { Accepted (seen v) × (plies ≤ 6) }
    ensures { result ≡ divided_of plies (seen v) }
{
    let list = movegen::generate(v).ok_or(Refusal::TooManyMoves)?;
    let mut counts = [0u64; 256];
    // A loop over `zip(&mut counts)` was tried: the proof does not close, since it cannot name what is stored.
    for (i, &mv) in list.entries().iter().enumerate() {
        counts[i] = count(playing::next(v, mv), plies)?;
    }
    Ok(Divided { list, counts })
}

// The depth count split by first move. Depth 0 is read as 1. Refusals: 12, 10, 17. The first two tests are those of
// `perft`. They are in no function of their own, since its contract would be longer than they are.
#[tactic(auto, unfolding(crate::specs::Counts::divide_of, crate::specs::Lists::view_at))]
pub fn divide(p: Position, depth: u32) -> Result<Divided, Refusal>
    ensures { result ≡ divide_of p depth }
{
    let v = movegen::view(p)?;
    Refusal::BeyondLimit.unless(depth <= MAX_DEPTH)?;
    split(v, depth.saturating_sub(1))
}
