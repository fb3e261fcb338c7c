// The archive promise, demand 3, and demand 2 of scene strips: no code, only what their words mean (specs) and their theorems (proofs).

#![tactic(auto)]
