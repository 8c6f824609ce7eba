// The search prices what the writer writes: definition in specs/, the theorem in proofs/Main. No code.
