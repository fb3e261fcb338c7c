// Every decoded number is the nearest whole number to the exact value in units, and the only one (specs/Nearest.antt, proofs/Theorems.antt).
// No function.

#![tactic(auto)]
