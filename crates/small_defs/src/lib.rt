// There is no code here: the small networks in their order, the tables of each, and worked examples.
#![tactic(auto)]
