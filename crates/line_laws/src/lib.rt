// Definitions and laws of programs that answer lines: specs/ and proofs/. There is no code here.
//
// A program is given by `step`, its answer to a line, and `most`, the most bytes that a line may have. The laws say
// what it writes, however its input is cut into reads, and where a read or a write fails. They ask one thing of the
// program, `Cut`: a line that is too long has the answer of its first most + 1 bytes. Another program cites them with
// a step of its own.
#![tactic(auto)]
