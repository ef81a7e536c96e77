// Wrong models of the part, each refuted by a demand: specs/ has them all, and no code stands here.
#![tactic(auto)]
