// Captures, computed by formulas on sets: lists of moves, the search for the captures of men and kings, and the board
// as the side to move sees it. The contracts here name the formulas. That these give the captures of the rules is
// proved in the crate capture_laws.
#![tactic(auto)]

pub mod movegen;
pub mod moves;
pub mod pieces;
pub mod ray;
pub mod view;
