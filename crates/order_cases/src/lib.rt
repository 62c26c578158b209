// The cases of the placing order as sentences, and that its refusal is the one that they tell: definitions and laws are in specs/ and proofs/.
#![tactic(auto)]
