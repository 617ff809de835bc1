// A reader, as standard input: one read, a line byte by byte, or all of it up to the end of a buffer.
//
// No contract says what standard input delivers, since that of its read does not. The contracts say what the answer of
// a read means, how many bytes were read at most, that a line has no line feed in it, and which bytes of the buffer
// stay. Of a reader whose bytes are known, they also say that the bytes in the buffer are those that were read, in
// order, that `read_line` reads nothing after the line feed, and that nothing is left at the end of the input.
//
// A read fails where the reader answers an error. The reason is not asked: a call that a signal interrupts, or that
// would have to wait on a descriptor that must not wait, counts as one that failed.
ghost use Rattle.std.specs.Prelude.{◌≡◌, length};
ghost use Rattle.frame.specs.Input.{came_of, CameIn, CameFrom, SingleFrom, TakenIn, TakenFrom, TakenLine, LineFrom};

use crate::output::Failure;
use std::io;
use std::io::Read;

// What the answer of a read means. Only an error is a failed read; the end of the input is none.
fn what_came(got: io::Result<usize>) -> Result<usize, Failure>
    ensures { result ≡ came_of got }
{
    got.map_err(|_| Failure::Read)
}

// Reads once, into the start of the space. Returns how many bytes that is. As in the library's `read`, 0 is the end of
// the input, or the space has no byte.
pub fn read_once<R: Read>(from: &mut R, space: &mut [u8]) -> Result<usize, Failure>
    ensures came_in { CameIn (length space.new) result }
    ensures came_from { CameFrom (R.remaining from.old) (R.remaining from.new) space.new result }
{
    what_came(from.read(space))
}

// Reads one byte. Returns nothing at the end of the input.
fn read_byte<R: Read>(from: &mut R) -> Result<Option<u8>, Failure>
    ensures { SingleFrom (R.remaining from.old) (R.remaining from.new) result }
{
    let mut one = [0u8; 1];
    let n = read_once(from, &mut one)?;
    Ok(one[..n].first().copied())
}

// Reads byte by byte up to a line feed, the end of the input or the end of the buffer. Returns how many bytes the line
// has: the line feed is not put into the buffer. A full buffer may be the start of a longer line. The bytes of the
// buffer after the line stay.
#[tactic(auto, using(crate::proofs::Taking::line_start, crate::proofs::Taking::none_taken))]
pub fn read_line<R: Read>(from: &mut R, buf: &mut [u8]) -> Result<usize, Failure>
    ensures line { TakenLine buf.old buf.new result }
    ensures line_from { LineFrom (R.remaining from.old) (R.remaining from.new) buf.new result }
{
    for (n, place) in buf.iter_mut().enumerate() {
        match read_byte(from)? {
            None | Some(b'\n') => return Ok(n),
            Some(b) => *place = b,
        }
    }
    Ok(buf.len())
}

// Reads up to the end of the input or the end of the buffer. Returns how many bytes that is. A full buffer may be the
// start of a longer input, so it has one byte more than the longest input that the program takes.
#[tactic(auto, using(crate::proofs::Taking::by_reads))]
pub fn read_all<R: Read>(from: &mut R, buf: &mut [u8]) -> Result<usize, Failure>
    ensures taken_in { TakenIn (length buf.new) result }
    ensures taken_from { TakenFrom (R.remaining from.old) (R.remaining from.new) buf.new result }
{
    let mut n = 0;
    // A read takes as many bytes as it likes, so the place goes on by what it took. With a `&mut` slice that gets
    // shorter in its place the proof does not close: after the loop only the length of the buffer is known.
    while n < buf.len() {
        let k = read_once(from, &mut buf[n..])?;
        if k == 0 {
            return Ok(n);
        }
        n += k;
    }
    Ok(n)
}
