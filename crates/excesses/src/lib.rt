// A shipper's gas above its limits: mathematics alone, in specs/ and proofs/.
#![tactic(auto)]
