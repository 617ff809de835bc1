// The line protocol of `dame` (docs/PROTOCOL.md): what each request reads and what is answered.
//
//   requests   the table of the requests; the answer to a line
//   asked      the requests about a position that are more than one call of `answers` (crate replies)
//   plays      the requests about games
//   reading    the texts of a request, their escapes undone, as positions, moves and squares
#![tactic(auto)]

mod asked;
mod plays;
mod reading;
pub mod requests;
