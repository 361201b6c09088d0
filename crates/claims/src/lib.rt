// No code: the three demands as theorems over the public entries, and the table of worked cases. See proofs/Demand1, Demand2,
// Demand3 and Worked.

#![tactic(auto)]
