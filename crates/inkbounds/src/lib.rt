// Ink values and errors are numbers: proofs/Inks.antt.
#![tactic(auto)]
