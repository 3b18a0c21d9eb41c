// Document 01's twelve cases, about the definitions that the contracts cite: specs/Cases.antt has the table,
// proofs/AllHold.antt the theorem.
#![tactic(auto)]
