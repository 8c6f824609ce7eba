// Any run of calls on a store answers as a plain map: a theorem, no code.
#![tactic(auto)]
