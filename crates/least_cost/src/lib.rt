// The theory of least cost over a list of positions: definitions in specs/, theorems in proofs/ (Main lists them). No code.
#![tactic(auto)]
