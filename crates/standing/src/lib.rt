// The rows that a column stands in: the proof that they are those that `Standing.antt` of `model` names, and no others. There is nothing to run here.
// It is a crate of its own since it takes longer than all other proofs of `model`, and each must-fail edit of `model` would check it again.
#![tactic(auto)]
