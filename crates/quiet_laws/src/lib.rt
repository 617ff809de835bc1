// Laws, no code: the quiet lists and the tests on sets (crate `quiets`) are those of the rules (proofs/Laws.antt).
#![tactic(auto)]
