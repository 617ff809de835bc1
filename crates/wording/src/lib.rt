// The words of requests and answers (docs/PROTOCOL.md), for any program that answers lines.
//
// * `words`: a line's words, which are separated by single spaces;
// * `escapes`: the text that a word with escapes stands for;
// * `numbers`: the readers of numbers;
// * `output`: the writers of answers, piece by piece into lent bytes.
//
// Every function has an answer for every input.
#![tactic(auto)]

pub mod escapes;
pub mod numbers;
pub mod output;
pub mod words;
