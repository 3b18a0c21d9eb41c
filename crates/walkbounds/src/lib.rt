// Costs, the field and the error stay numbers all through a walk: proofs/Tiles.antt and proofs/Walks.antt.
#![tactic(auto)]
