// The states of both retry ends as bytes. The definitions are in specs/, that they agree in proofs/; there is no code here.
#![tactic(auto)]
