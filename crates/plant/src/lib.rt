// Demand 3: what confirmation shows is a word of the plant. This room has no code: specs/ has the premises and the conclusion.
#![tactic(auto)]
