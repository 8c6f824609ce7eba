// How an exported search by its number answers: what the contracts of `c_search` and `c_small` share. No code.
