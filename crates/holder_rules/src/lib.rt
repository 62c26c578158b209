// The Junior with two holders, plans on one tip or two: definitions and laws are in specs/ and proofs/.
#![tactic(auto)]
