// What `dame` writes, piece by piece into a space: of a position, a move, a list or a count (`answers`), and of a game
// (`states`). What has no room is left out.
#![tactic(auto)]

pub mod answers;
pub mod states;
