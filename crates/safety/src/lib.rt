// Demand 3: what no run of the coordinator can do. It is stated in specs/ and proved in proofs/, over the definitions of `rules`; there is no code here.

#![tactic(auto)]
