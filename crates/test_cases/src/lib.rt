// Document 01's marked cases, computed over the definitions. There is no code here.
#![tactic(auto)]
