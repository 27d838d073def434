// Definitions in specs/ and their laws in proofs/; the code that meets them is the crates `slice` and `slice_queries`.
#![tactic(auto)]
