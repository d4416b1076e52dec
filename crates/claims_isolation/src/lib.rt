// No code: the theorems on locked bytes over lists of calls. specs/ has each statement, proofs/ its proof.
#![tactic(auto)]
