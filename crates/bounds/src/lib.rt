// Bounds on floats, for the proof that no NaN and no infinity arises: specs/ says what a bound is, proofs/ how arithmetic keeps it.
#![tactic(auto)]
