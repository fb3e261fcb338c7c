// Graded strips: the words of 02, item 7, over strips (specs/), and their theorems (proofs/). There is no code.

#![tactic(auto)]
