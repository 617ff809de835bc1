// The program dame: it answers its arguments, or standard input line by line, on standard output.
//
// Without arguments, each line of standard input is a request, and its answer is one line of standard output. With
// arguments, these are one request, joined by single spaces: its answer is written, and standard input is not read. The
// argument `--help` alone writes the help.
//
// No contract says what standard input delivers or what standard output gets, since those of their read and write do
// not. So all of the work is in functions over a reader and a writer. Where the bytes of these are known, the contract
// of `feed` says what is written: the output for the whole input, however the input is cut into reads; and where a read
// or a write fails, a beginning of it (`FedTo`). What is written for arguments is `given_output`.
//
// The buffers (`buffers`) say which bytes they contain: `answer_lines` answers whole lines, `carry` keeps the line that
// is not whole yet, `last_answer` answers it at the end of the input, and `given_answer` answers the arguments.
//
// The laws on runs are those of the crate line_laws, with `answer_of` for the answer to a line (`run_law`, `stop_law`,
// `read_stop_law`). What is written for arguments is what is written for an input of that line alone (`given_law`).
#![tactic(auto)]

ghost use Rattle.std.specs.Prelude.{◌≡◌};
ghost use Rattle.requests.specs.Requests.{answer_of};
ghost use Rattle.frame.specs.Output.{Put};
ghost use Rattle.line_laws.specs.Lines.{last_answer};
ghost use Rattle.lines.specs.Steps.{SentOf, SentTo};
ghost use Rattle.lines.specs.Given.{given_output};
ghost use Rattle.lines.specs.Fed.{FedTo, Ran};

mod buffers;

use buffers::{Answers, Unanswered};
use frame::arguments::TooLong;
use frame::output::Failure;
use frame::{arguments, output};
use std::env::Env;
use std::io;
use std::io::{Input, Read, Write};
use std::marker::Model;

// Room for the longest line and one byte more.
const LINE: usize = requests::requests::LONGEST + 1;

// A writer, and the buffer of the answers that are not written to it yet. Contracts see the bytes of the writer.
#[derive(Drop)]
struct AnswerWriter<W: Write> {
    to: W,
    answers: Answers,
}

impl<W: Write> Model for AnswerWriter<W> {
    ghost use Rattle.std.specs.Prelude.{List, ℕ, Option};

    ghost Value = { Option (List ℕ) };

    ghost view = { λ w. W.contents w.to };
}

impl<W: Write> AnswerWriter<W> {
    fn new(to: W) -> Self
        ensures { result ≡ W.contents to }
    {
        AnswerWriter {
            to,
            answers: Answers::new(),
        }
    }

    // Writes the answers to the whole lines of s. It stops at the first write that fails. Returns how many bytes these
    // lines are.
    #[tactic(auto, using(crate::proofs::Turns::write_steps))]
    fn write_answers(&mut self, s: &[u8]) -> Result<usize, Failure>
        ensures sent { SentOf s.now result }
        ensures sent_to { SentTo self.old self.new s.now result }
    {
        let mut rest = s;
        // The rest gets shorter by the lines whose answers had room in the buffer.
        loop {
            let next = self.answers.answer_lines(rest);
            if next.len() == rest.len() {
                return Ok(s.len() - rest.len());
            }
            self.answers.write(&mut self.to)?;
            rest = next;
        }
    }

    // At the end of the input: writes the answer to the last line, which has no line feed, if there is such a line.
    fn write_last(&mut self, line: &[u8]) -> Result<(), Failure>
        ensures { Put self.old self.new (last_answer answer_of line.now) result }
    {
        self.answers.last_answer(line);
        self.answers.write(&mut self.to)
    }

    // Each turn reads once and answers the lines that are whole then. After a read or a write that fails, nothing more
    // is answered or written. After u64::MAX turns, which no run reaches, it ends as if a read had failed.
    #[tactic(auto, using(crate::proofs::Turns::none_fed, crate::proofs::Turns::turn_more))]
    fn feed<R: Read>(&mut self, from: &mut R) -> Result<(), Failure>
        ensures { FedTo (R.remaining from.old) (R.remaining from.new) self.old self.new result }
    {
        let mut input = Unanswered::new();
        for _ in 0..u64::MAX {
            if input.read_more(from)? == 0 {
                return self.write_last(input.as_slice());
            }
            let whole = self.write_answers(input.as_slice())?;
            input.carry(whole);
        }
        Err(Failure::Read)
    }

    // Writes the answer to the arguments, given as one line. Standard input is not read. (One function for this
    // and `write_last` would take the answer as a closure, and be no shorter.)
    fn answer_given(&mut self, line: &[u8]) -> Result<(), Failure>
        ensures { Put self.old self.new (given_output line.now) result }
    {
        self.answers.given_answer(line);
        self.answers.write(&mut self.to)
    }

    // Answers the arguments, or standard input where there are none. The buffer `line` has one byte more than the
    // longest line. Arguments that leave no byte of it free are too long for a line. Then the whole buffer is
    // answered in their place: it is too long as well, and all such lines have one answer (law `given_long`).
    fn run<E: Env, R: Read>(&mut self, rt: &E, from: &mut R, line: &mut [u8]) -> Result<(), Failure>
        ensures { Ran line.old line.new (R.remaining from.old) (R.remaining from.new) self.old self.new result }
    {
        match arguments::arguments(rt, line) {
            Ok(Some(n)) => self.answer_given(&line[..n]),
            Ok(None) => self.feed(from),
            Err(TooLong) => self.answer_given(line),
        }
    }
}

// The whole program. It ends with the input, or at the first read or write that fails, and reports that on standard
// error.
pub fn serve<R: Env + Input + Print + Eprint>(rt: &R) {
    let mut line = [0u8; LINE];
    let mut from = rt.reader();
    let mut writer = AnswerWriter::new(io::writer(rt));
    output::report(rt, writer.run(rt, &mut from, &mut line));
}
