// What is true of the small networks (document 02, K9). There is no code here: the place of a network as a definition, and theorems.
#![tactic(auto)]
