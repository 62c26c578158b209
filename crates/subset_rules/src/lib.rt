// Exact sharing on any board, with a price for each tip used: its definitions and laws are in specs/ and proofs/.
#![tactic(auto)]
