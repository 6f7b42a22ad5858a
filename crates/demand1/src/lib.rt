// Demand 1, as theorems about the definitions that the calls are proved equal to. There is no code here.
#![tactic(auto)]
