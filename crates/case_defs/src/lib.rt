// The case that planning takes, of a header and its tables. There is no code here.

#![tactic(auto)]
