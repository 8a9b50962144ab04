// Captures: the rules are in specs/ and what follows from them in proofs/; there is no code here.
#![tactic(auto)]
