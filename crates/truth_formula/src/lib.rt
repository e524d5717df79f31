// When a formula as lent is true, with and without dependency lists, and that narrowing to the standard, the strict and the resolution-path sets keeps it.
// Definitions in specs/, laws and theorems in proofs/. No code.

#![tactic(auto)]
