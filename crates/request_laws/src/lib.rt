// Laws on the answers of `requests`, no code: no answer is longer than the room that is kept for it (`answer_short`);
// what `record` and `play` answer is a run as in demand 3 (`record_demand`, `play_demand`).
#![tactic(auto)]
