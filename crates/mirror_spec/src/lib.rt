// The definitions of negated lists, and the theorems over them, are in specs/ and proofs/.
#![tactic(auto)]
