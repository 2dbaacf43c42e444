// What is claimed of the library, in one place. No code: the definitions are in specs/, the theorems in proofs/.

#![tactic(auto)]
