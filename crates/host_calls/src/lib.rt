// What each call from C comes to. The definitions are in specs/, the law of refusals and the rest in proofs/; there is no code here.
#![tactic(auto)]
