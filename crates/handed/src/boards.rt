// Makes a position of three sets and a side without testing them.
use positions::position::Position;
use squares::bitboard::Bitboard;
use squares::piece::{Color, PieceKind};
use squares::{bitboard, zobrist};

// The keys of these pieces of a colour.
fn key(color: Color, pieces: Bitboard, kings: Bitboard) -> u64 {
    let men = zobrist::set_key(color, PieceKind::Man, bitboard::difference(pieces, kings));
    men ^ zobrist::set_key(color, PieceKind::King, pieces & kings)
}

// These sets with the hash of the pieces in them, whatever is wrong with the sets. The bits of `wrong` are flipped in
// the hash. There is no public function for such a hash. It is put together here from the keys: by a call of what
// refusal 12 tests with, a fault of that would not show.
pub(crate) fn with_hash(
    white: Bitboard,
    black: Bitboard,
    kings: Bitboard,
    side: Color,
    wrong: u64,
) -> Position {
    let pieces = key(Color::White, white, kings) ^ key(Color::Black, black, kings);
    let turn = match side {
        Color::White => 0,
        Color::Black => zobrist::side_key(),
    };
    Position {
        white,
        black,
        kings,
        side,
        hash: pieces ^ turn ^ wrong,
    }
}
