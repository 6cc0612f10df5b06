// The signed-wrap product of polynomials over whole numbers, and its laws. There is no code here: the crate `ring` computes it.

#![tactic(auto)]
