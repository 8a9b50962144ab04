// Facts that no format owns. They are in specs/ and proofs/; there is no code here.
#![tactic(auto)]
