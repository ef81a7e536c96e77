// The three demands, as properties of any model of the part: specs/ has them, and no code stands here.
#![tactic(auto)]
