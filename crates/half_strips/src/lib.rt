// Half strips: the words of 02, item 6, over strips (specs/), and their theorems (proofs/). There is no code.

#![tactic(auto)]
