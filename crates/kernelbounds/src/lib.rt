// Gaussian values, blurs and kernels of an accepted eye are numbers: proofs/Kernels.antt.
#![tactic(auto)]
