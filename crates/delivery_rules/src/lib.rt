// Demand 3: a sender, a receiver and two lines. The model, the demand and ours are in specs/, the theorems in proofs/; there is no code here.
#![tactic(auto)]
