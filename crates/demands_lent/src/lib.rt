// What demands 1 and 3 and the counts say of the entry over a lent record. There is no code here.
#![tactic(auto)]
