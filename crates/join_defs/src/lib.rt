// Two survey districts in one case (document 02, K10). There is no code here: specs/ has the definitions, proofs/ their laws and examples.

#![tactic(auto)]
