// Theorems about two cases joined and their plans (document 02, K10). There is no code here.

#![tactic(auto)]
