// The worked cases P1 to P10 (rule 17.1): what the calls ensure on formula A, one table with a single claim, proved. No code.

#![tactic(auto)]
