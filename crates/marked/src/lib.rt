// The marked checks of 01, "Marked and unmarked checks": specs/ states them, proofs/ proves them. No function.

#![tactic(auto)]
