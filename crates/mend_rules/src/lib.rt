// Mending a job file, what is kept of its lines and what is reported of the changes: definitions and laws are in specs/ and proofs/.
#![tactic(auto)]
