// Ours meets the three demands, and nothing else does: specs/ has the theorems, the worked examples and the unique answers, and no code stands here.
#![tactic(auto)]
