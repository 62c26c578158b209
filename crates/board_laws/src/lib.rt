// What the calls of a board keep from one release to the next, and what one call says of another, and of a call on a file: the laws are in proofs/.
#![tactic(auto)]
