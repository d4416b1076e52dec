// No code: the theorems on which bytes are locked. specs/ has each statement, proofs/ its proof.
#![tactic(auto)]
