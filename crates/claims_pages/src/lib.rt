// No code: the theorems on pages of several trims. specs/ has each statement, proofs/ its proof.
#![tactic(auto)]
