// Definitions in specs/ and their laws in proofs/; the code that meets them is the crate `writer`.
#![tactic(auto)]
