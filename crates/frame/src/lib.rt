// What programs share: they read a line or all of standard input, write standard output, report that a read or a
// write failed, and take their arguments as one line.
#![tactic(auto)]

pub mod arguments;
pub mod input;
pub mod output;
