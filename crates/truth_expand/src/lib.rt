// Expanding a universal keeps a formula's truth, for every list of members that serves; and a search that begins too far in does not.
// Definitions in specs/, laws and theorems in proofs/. No code.

#![tactic(auto)]
