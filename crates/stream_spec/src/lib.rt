// Definitions in specs/ and their laws in proofs/; the code that meets them is the crates `stream` and `stream_next`.
#![tactic(auto)]
