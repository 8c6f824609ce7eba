// The tokens of one block, out and back: what is written and read, by definition, and the laws of both ways. No code.
