// Pair goals and checked plans: definitions and laws are in specs/ and proofs/.
#![tactic(auto)]
