// Nothing that stems from an accepted call of refine, measure or open is a NaN or an infinity: specs/Finite.antt has
// the statement, specs/InBits.antt what follows for bits, proofs/Theorem.antt the theorems.
#![tactic(auto)]
