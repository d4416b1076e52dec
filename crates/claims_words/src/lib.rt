// No code: the theorems on reading and writing one instruction word. specs/ has each statement, proofs/ its proof.
#![tactic(auto)]
