// What placement answers. There is no code here: types, the definition of placing and worked examples.
#![tactic(auto)]

use refusal::Refusal;
