// No code: the theorems on calls and lists of them. specs/ has each statement, proofs/ its proof.
#![tactic(auto)]
