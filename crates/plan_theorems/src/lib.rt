// Theorems about the defined plan: demand 3, the starred worked examples, and laws for later requests. There is no code here.

#![tactic(auto)]
