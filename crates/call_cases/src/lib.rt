// The cases of each call as sentences in the rule book's order, and that its refusal is the one that they tell: definitions and laws are in
// specs/ and proofs/.
#![tactic(auto)]
