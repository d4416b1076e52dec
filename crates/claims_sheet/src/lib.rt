// No code: the theorems on what the definitions say of single instructions. specs/ has each statement, proofs/ its proof.
#![tactic(auto)]
