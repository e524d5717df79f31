// Reduced clauses give the same forest and the same sets (rule 15.1): definitions in specs/, theorems in proofs/. No code.

#![tactic(auto)]
