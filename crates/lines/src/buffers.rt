// The buffers of the program: the input that is not answered yet, and the answers that are not written yet. Contracts
// see each as the list of its bytes.
ghost use Rattle.std.specs.Prelude.{◌≡◌, [], ◌∷◌, ◌++◌, ◌≤◌, ◌+◌, ◌-◌, ◌↔◌, IsTrue, length, drop};
ghost use Rattle.requests.specs.Requests.{longest, answer_room, answer_of};
ghost use Rattle.frame.specs.Output.{Put};
ghost use Rattle.line_laws.specs.Lines.{whole_of, carried_of, last_answer};
ghost use Rattle.line_laws.specs.Steps.{Answered};
ghost use Rattle.lines.specs.Given.{given_output};
ghost use Rattle.lines.specs.Contents.{output_size, ReadTo};

use frame::output::Failure;
use frame::{input, output};
use std::io::{Read, Write};
use std::marker::Model;
use texts::bytes;
use wording::words;

// The room for an answer and its line feed: no answer is longer (law `answer_short`).
const ROOM: usize = 23 * requests::requests::LONGEST;

// How many bytes the buffers have.
const INPUT: usize = 131072;

const OUTPUT: usize = 1572864;

// Bytes in an array of N: the first `count` of them. The library's `ArrayVec` lends no free bytes to be read into.
#[derive(Drop)]
pub(crate) struct Buffer<const N: usize> {
    bytes: [u8; N],
    count: usize,
}

impl<const N: usize> Model for Buffer<N> {
    ghost use Rattle.std.specs.Prelude.{List, ℕ, ◌≤◌, take};

    ghost Value = { List ℕ };

    ghost view = { λ b. take b.count b.bytes };

    ghost invariant = { λ b. b.count ≤ N };
}

impl<const N: usize> Buffer<N> {
    pub(crate) fn new() -> Self
        ensures { result ≡ [] }
    {
        Buffer {
            bytes: [0; N],
            count: 0,
        }
    }

    pub(crate) fn as_slice(&self) -> &[u8]
        ensures { result.now ≡ self.now }
    {
        &self.bytes[..self.count]
    }

    fn clear(&mut self)
        ensures { self.new ≡ [] }
    {
        self.count = 0;
    }
}

// The input that is not answered yet: between two reads, the start of a line that is not whole.
pub(crate) type Unanswered = Buffer<INPUT>;

impl Unanswered {
    // Reads once, after the bytes that were carried over. Returns how many bytes that is: 0 is the end of the input.
    #[tactic(auto, using(crate::proofs::Contents::read_rules))]
    pub(crate) fn read_more<R: Read>(&mut self, from: &mut R) -> Result<usize, Failure>
        requires { length self.old ≤ longest + 1 }
        ensures { ReadTo (R.remaining from.old) (R.remaining from.new) self.old self.new result }
    {
        let n = input::read_once(from, &mut self.bytes[self.count..])?;
        self.count += n;
        Ok(n)
    }

    // Carries over the line that is not whole yet, after the bytes of the whole lines: all of it, or one byte more than
    // the longest line has. That is enough to show that the line is too long.
    #[tactic(auto, using(crate::proofs::Contents::carry_rules))]
    pub(crate) fn carry(&mut self, whole: usize)
        requires { whole ≡ whole_of self.old }
        ensures upper_bound { length self.new ≤ longest + 1 }
        ensures carried { self.new ≡ carried_of longest self.old }
    {
        let kept = (self.count - whole).min(requests::requests::LONGEST + 1);
        self.bytes.copy_within(whole..whole + kept, 0);
        self.count = kept;
    }
}

// The answers that are not written yet.
pub(crate) type Answers = Buffer<OUTPUT>;

impl Answers {
    // Is there room for the longest answer?
    fn has_room(&self) -> bool
        ensures { IsTrue result ↔ (length self.now + answer_room ≤ output_size) }
    {
        ROOM <= OUTPUT - self.count
    }

    // Puts the answer to a line and its line feed.
    #[tactic(auto, using(crate::proofs::Contents::answer_rules))]
    fn answer(&mut self, line: &[u8])
        requires { length self.old + answer_room ≤ output_size }
        ensures { self.new ≡ self.old ++ (answer_of line.now ++ (10 ∷ [])) }
    {
        let n = requests::requests::answer(line, &mut self.bytes[self.count..]);
        self.bytes[self.count + n] = b'\n';
        self.count += n + 1;
    }

    // Answers whole lines from the start of s on, as long as there is room for the longest answer. Returns the bytes
    // after them.
    #[tactic(auto, using(crate::proofs::Contents::line_rules))]
    pub(crate) fn answer_lines<'a>(&mut self, s: &'a [u8]) -> &'a [u8]
        ensures rest { result.now ≡ drop (length s.now - length result.now) s.now }
        ensures answered { Answered answer_of s.now 0 self.new (length s.now - length result.now) (length self.new) }
    {
        self.clear();
        let mut rest = s;
        // The rest gets shorter by whole lines, until there is none or no more room. It is the result.
        while self.has_room() {
            let (line, Some(after)) = bytes::cut_at(rest, b'\n') else {
                return rest;
            };
            self.answer(line);
            rest = after;
        }
        rest
    }

    // At the end of the input: answers the last line, which has no line feed, if there is such a line.
    #[tactic(auto, using(crate::proofs::Contents::last_none, crate::proofs::Contents::last_some))]
    pub(crate) fn last_answer(&mut self, line: &[u8])
        ensures { self.new ≡ last_answer answer_of line.now }
    {
        self.clear();
        if !line.is_empty() {
            self.answer(line);
        }
    }

    // Puts what is written for the arguments, given as one line: the help for `--help`, else the answer and a line
    // feed.
    #[tactic(auto, using(crate::proofs::Contents::given_rules))]
    pub(crate) fn given_answer(&mut self, line: &[u8])
        ensures { self.new ≡ given_output line.now }
    {
        self.clear();
        if words::same(line, b"--help") {
            self.count = requests::requests::help(&mut self.bytes);
            return;
        }
        self.answer(line);
    }

    // Writes the answers.
    pub(crate) fn write<W: Write>(&self, to: &mut W) -> Result<(), Failure>
        ensures { Put (W.contents to.old) (W.contents to.new) self.now result }
    {
        output::write(to, self.as_slice())
    }
}
