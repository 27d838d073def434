// Definitions in specs/ and their laws in proofs/: the XML text of events.
#![tactic(auto)]
