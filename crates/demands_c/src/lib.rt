// The demands for C: what each call for C tells is what the library's call promises, and 0 means accepted; demands 2 and 3 for the calls of C. Statements in
// specs/, proofs in proofs/. No code.

#![tactic(auto)]
