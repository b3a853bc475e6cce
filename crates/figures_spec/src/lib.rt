// The definitions of the totals of tables and of ranges, and the theorems over them, are in specs/
// and proofs/.
#![tactic(auto)]
