// The cases of a call in their order, each a reason with a sentence, and what they tell: definitions and laws are in specs/ and proofs/.
#![tactic(auto)]
