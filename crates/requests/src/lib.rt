// The requests of document 02, each as a theorem in its own words. There is no code here.
#![tactic(auto)]
