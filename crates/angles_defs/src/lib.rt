// What the angle solver answers. There is no code here: types, the definition of the solve and its laws.
#![tactic(auto)]

use refusal::Refusal;

// How a solve ended, with its last figure.
#[derive(Clone, Copy)]
pub enum Ended {
    // The norm of the residual is at most 1e-11 of the right side's: that norm.
    Settled(f64),
    // The direction does not descend: dq, which is not above zero.
    NoDescent(f64),
    // All steps are spent: the norm of the last residual.
    StepsSpent(f64),
}

// How often x was moved, and how the solve ended.
#[derive(Clone, Copy)]
pub struct Solution {
    pub steps: usize,
    pub ended: Ended,
}
