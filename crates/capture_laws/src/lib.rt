// Laws, no code: the search for captures on sets (crate `captures`) finds the captures of the rules (proofs/Laws.antt).
#![tactic(auto)]
