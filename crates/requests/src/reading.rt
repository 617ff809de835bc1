// The texts of a request: their escapes are undone once, and then they are read as positions, moves or squares.
//
// A text of more than 4,096 bytes is refused whatever it says. So 4,097 bytes of it are enough.
ghost use Rattle.std.specs.Prelude.{◌≡◌, take};
ghost use Rattle.std.specs.Fn.{FnOnceReturnsAt};
ghost use Rattle.wording.specs.Escapes.{undone};
ghost use Rattle.requests.specs.Reading.{either_of, fen_in, hub_in, position_in, move_in, square_in};

use positions::moves::Move;
use positions::position::Position;
use squares::refusal::Refusal;
use texts::{fen, hub};
use wording::escapes;

// 51 bytes without a colon are Hub. Everything else is FEN.
#[tactic(auto, using(crate::proofs::Readings::colon_none, crate::proofs::Readings::colon_some), unfolding(crate::specs::Reading::either_of))]
fn either(text: &[u8]) -> Result<Position, Refusal>
    ensures { result ≡ either_of text.now }
{
    if text.len() == 51 && !text.contains(&b':') {
        hub::from_hub(text)
    } else {
        fen::from_fen(text)
    }
}

// What is read of the text of a word, of 4,097 bytes at most.
pub(crate) fn unescaped<T, F: FnOnce(&[u8]) -> T>(word: &[u8], read: F) -> T
    requires { F.IsAlwaysCallable read }
    ensures { FnOnceReturnsAt F.FnOnce read (take 4097 (undone word.now)) result }
{
    let mut space = [0u8; 4097];
    let n = escapes::unescape(word, &mut space);
    read(&space[..n])
}

// The position that a word means as FEN.
pub(crate) fn fen(word: &[u8]) -> Result<Position, Refusal>
    ensures { result ≡ fen_in word.now }
{
    unescaped(word, fen::from_fen)
}

// The position that a word means as Hub.
pub(crate) fn hub(word: &[u8]) -> Result<Position, Refusal>
    ensures { result ≡ hub_in word.now }
{
    unescaped(word, hub::from_hub)
}

// The position that a word means, as FEN or as Hub.
pub(crate) fn position(word: &[u8]) -> Result<Position, Refusal>
    ensures { result ≡ position_in word.now }
{
    unescaped(word, either)
}

// The listed move that a word means on a position.
pub(crate) fn listed_move(p: Position, word: &[u8]) -> Result<Move, Refusal>
    ensures { result ≡ move_in p word.now }
{
    unescaped(word, |text| notation::notation::parse_move(p, text))
}

// The square that a word means.
pub(crate) fn square(word: &[u8]) -> Result<u32, Refusal>
    ensures { result ≡ square_in word.now }
{
    unescaped(word, texts::square::from_str)
}
