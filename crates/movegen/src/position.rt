// The position after a move, computed on sets (docs/RULES.md, "Playing a move"), ported from `Position::play` of
// position.rs. It tests nothing, so it is not public: `movegen::after` tests the position and the move first.
ghost use Rattle.std.specs.Prelude.{◌≡◌};
ghost use Rattle.positions.specs.Successor.{play_of};

use crate::playing;
use captures::view::View;
use positions::moves::Move;
use positions::position::Position;
use squares::{bitboard, zobrist};

// The hash is updated, not computed afresh, as in the Rust. For a move that can be played the result is the successor
// with its own hash (`play_is` in crates/positions/proofs/Plays.antt); for any other move it is what the formulas
// give.
pub(crate) fn play(p: Position, mv: Move) -> Position
    ensures { result ≡ play_of p mv }
{
    let v = playing::next(View::from(p), mv);
    let kept = bitboard::difference(p.kings, mv.captured);
    let hash = p.hash
        ^ p.keys_on(!p.side, mv.captured)
        ^ playing::moved_key(p.side, kept, mv)
        ^ zobrist::side_key();
    playing::with_hash(v, hash)
}
