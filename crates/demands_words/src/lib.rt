// Theorems alone: demands 1 and 3 and the counts, of the entry for cost. specs/ has them.
#![tactic(auto)]
