// The definitions of pages and their spans, and the theorems over them, are in specs/ and proofs/.
#![tactic(auto)]
