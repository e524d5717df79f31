// The theory of connection: definitions in specs/, laws and theorems in proofs/. No code.

#![tactic(auto)]
