// What case reading and the file of a case are to each other. There is no code here: a writer as a definition, and theorems.
#![tactic(auto)]
