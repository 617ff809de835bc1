// The rules of moves in two forms, and the laws that join them. There is no code in this crate.
// - specs/Rules.antt says which moves are legal. It is the file to read in a dispute.
// - specs/Ordered.antt lists the legal moves, in the order in which the program lists them.
// - proofs/Laws.antt has the laws: a move is in the list exactly when it is legal, and no move is in it twice.
#![tactic(auto)]
