// What a store of token runs answers and leaves, and the plain map that it stands for: definitions and laws, no code.
#![tactic(auto)]
