// A tally after any run of calls: definitions in specs/, the theorem in proofs/Main. No code.
