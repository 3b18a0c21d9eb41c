// Errors, the field, the initial error and the perceived error are numbers: proofs/Errors.antt and proofs/Measured.antt.
#![tactic(auto)]
