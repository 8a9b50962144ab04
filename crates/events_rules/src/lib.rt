// Reading a whole capture: the rules are in specs/, the theorems about them in proofs/.
#![tactic(auto)]
