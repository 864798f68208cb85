// 01's figures beside the definitions: a table and its proof alone, in specs/ and proofs/.
#![tactic(auto)]
