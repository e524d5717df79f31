// The three demands and the claims of the requests, said of the promises of the calls: statements in specs/, proofs in proofs/. No code.

#![tactic(auto)]
