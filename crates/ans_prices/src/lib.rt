// Prices of ANS frequencies: what they are, and a table proved over all entries. No code.
#![tactic(auto)]
