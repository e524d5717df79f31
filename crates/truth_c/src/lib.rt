// What `snow_expand` writes for C holds exactly if the formula does that was lent to it. A theorem in proofs/. No code.

#![tactic(auto)]
