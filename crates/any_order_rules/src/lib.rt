// The order of a board's lines does not show in any answer: definitions and laws are in specs/ and proofs/.
#![tactic(auto)]
