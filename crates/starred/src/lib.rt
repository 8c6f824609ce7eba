// Document 01's starred examples: the rows in specs/, the proof that they hold in proofs/. No code.
#![tactic(auto)]
