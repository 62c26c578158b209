// The proved boards: the rows B1 to B74 of RULES 9 are in specs/ as three lists, and the proof of each list is in proofs/.
#![tactic(auto)]
