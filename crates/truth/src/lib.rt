// What it is for a formula to be true, by strategies and by the game of its prefix, and that narrowing dependence to the resolution-path sets keeps it.
// Definitions in specs/, laws and theorems in proofs/. No code.

#![tactic(auto)]
