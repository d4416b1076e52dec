// No code: the theorems on going back, longer runs, and lines over lists of calls. specs/ has each statement, proofs/ its proof.
#![tactic(auto)]
