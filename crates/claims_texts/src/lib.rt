// No code: the theorems on texts and listings. specs/ has each statement, proofs/ its proof.
#![tactic(auto)]
