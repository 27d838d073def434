// Definitions in specs/ and their laws, most in proofs/; the code that meets them is the crates `quick` and `scanner`.
#![tactic(auto)]
