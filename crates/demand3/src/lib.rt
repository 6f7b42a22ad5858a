// Demand 3 and the counts, over sequences of the public calls. No code: the theorems stand in specs/.
#![tactic(auto)]
