// Lists as the rules speak of them: definitions in specs/, laws in proofs/. There is no code here.

#![tactic(auto)]
