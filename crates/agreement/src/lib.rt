// The theorem read off the code: the calls of `step` and `restart` are the runs of `safety`. There is no code here.

#![tactic(auto)]
