// The definitions of totals in several formats, of answers within an allowance and of contributions,
// and the theorems over them, are in specs/ and proofs/.
#![tactic(auto)]
