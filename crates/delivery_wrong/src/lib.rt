// The wrong ends of the retry, each written down and shown not to meet demand 3; there is no code here.
#![tactic(auto)]
