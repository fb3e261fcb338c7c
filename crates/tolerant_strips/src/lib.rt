// Tolerant strips: the words of 02, item 8, over records and strips (specs/), and their theorems (proofs/). There is no code.

#![tactic(auto)]
