// The defined plan run on small cases: theorems alone, there is no code here.

#![tactic(auto)]
