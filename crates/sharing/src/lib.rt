// Sharing a capacity among rows: mathematics alone, in specs/ and proofs/.
#![tactic(auto)]
