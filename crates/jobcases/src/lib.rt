// Jobs computed whole, about the definitions that the contracts of the exported job calls cite: proofs/Cases.antt has an empty image and one swap,
// proofs/JobCases.antt document 01's plate and two tiles put back in descending number.
#![tactic(auto)]
