// The program's arguments, without its name, as one line: joined by single spaces.
//
// No contract says which arguments there are, since that of the library's `arg` does not. `join` only fills a buffer,
// and its contract says which bytes it adds. Only the code shows that the words joined are the arguments, in order.
// An argument need not be UTF-8: its bytes are passed on as they are.
ghost use Rattle.std.specs.Prelude.{◌≡◌};
ghost use Rattle.texts.specs.Lent.{over};
ghost use Rattle.frame.specs.Arguments.{next_word, WordIn, GivenIn};

use std::env::{Env, FillError};
use texts::space::Space;

// The joined arguments leave no byte of the buffer free, or one argument is too long to be read.
#[derive(Clone, Copy, Debug, PartialEq, Eq)]
pub struct TooLong;

// Puts a word that is not the first: a space, then the word. What has no room is left out.
#[tactic(auto, using(crate::proofs::Joining::by_join))]
fn join(space: &mut Space, word: &[u8])
    ensures { space.new ≡ over (next_word word.now) space.old }
{
    space.put_byte(b' ');
    space.put(word);
}

// Puts the argument of this number at the start of the word. Returns how many bytes it has, or nothing where there is
// no argument of this number.
fn read_word<E: Env>(rt: &E, i: usize, word: &mut [u8]) -> Result<Option<usize>, TooLong>
    ensures { WordIn word.new result }
{
    match rt.arg(i, word) {
        Ok(n) => Ok(Some(n)),
        Err(FillError::NotPresent) => Ok(None),
        Err(FillError::TooLong) => Err(TooLong),
    }
}

// Puts the arguments, joined by single spaces, at the start of the buffer. Returns how many bytes that is, or nothing
// where there are no arguments. The bytes after them stay. `TooLong` where the arguments do not leave a byte of the
// buffer free, or where one of them has more than 131072 bytes.
pub fn arguments<E: Env>(rt: &E, buf: &mut [u8]) -> Result<Option<usize>, TooLong>
    ensures { GivenIn buf.old buf.new result }
{
    // Linux passes no argument of more bytes.
    let mut word = [0u8; 131072];
    let mut space = Space::new(buf);
    let Some(n) = read_word(rt, 1, &mut word)? else {
        return Ok(None);
    };
    space.put(&word[..n]);
    for i in 2..usize::MAX {
        let Some(n) = read_word(rt, i, &mut word)? else {
            break;
        };
        join(&mut space, &word[..n]);
    }
    // No `unless`: its trait is in the crate `squares`, which this crate does not need. As
    // `(..).then_some(Some(space.at)).ok_or(TooLong)` this would read no plainer.
    if space.at == space.bytes.len() {
        return Err(TooLong);
    }
    Ok(Some(space.at))
}
