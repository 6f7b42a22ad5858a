// The definitions, held to the lists by computing. There is no code here.
#![tactic(auto)]
