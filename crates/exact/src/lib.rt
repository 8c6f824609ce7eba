// How far the rounded cost of a choice lies from its exact cost: laws alone.
#![tactic(auto)]
