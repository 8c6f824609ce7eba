// A block's search problem: it is sound, nothing overflows, and the theorems of least cost hold of it (proofs/Main lists them). No code.
#![tactic(auto)]
