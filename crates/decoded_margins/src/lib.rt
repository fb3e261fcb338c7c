// No code's product of table entries is near the border between two decoded numbers, computed at every code of every setting (proofs/).
// So there is room for half a unit beside each decoded number (specs/Half.antt). No function.

#![tactic(auto)]
