// The boards P1 to P12 (docs/RULES.md, "Twelve boards") as one table of theorems, no code (proofs/Table.antt).
#![tactic(auto)]
