// Worked cases of document 01, computed by the checker from the definitions of `rules`. There is no code here.

#![tactic(auto)]
