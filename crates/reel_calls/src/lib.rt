// Reel calls: the words of 02, item 9, over any list of calls on a reel (specs/), and their theorems (proofs/). There is no code.

#![tactic(auto)]
