// Powers with fractional exponents: what it takes to enclose them between fractions (proofs/). No function.

#![tactic(auto)]
