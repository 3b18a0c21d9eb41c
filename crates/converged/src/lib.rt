// No code: specs/Converged.antt says what dbs_find_move's answer means for a pass of the plain walk.
#![tactic(auto)]
