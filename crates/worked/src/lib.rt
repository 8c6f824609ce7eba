// Worked examples of the search problem: small blocks in specs/, what the definitions give for them in proofs/. No code.
#![tactic(auto)]
