// No code: `specs/` states what placing is for, and `proofs/` shows it of the definitions.
#![tactic(auto)]
