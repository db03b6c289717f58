// Case L, with weights. Each table has one place more than is right, as a lent array has; its ladder and its sheet go by the levels of the call.

#[derive(Drop)]
pub struct Case {
    pub tier: [u32; 3],
    pub reading: [f64; 3],
    pub weight: [f64; 3],
    pub bus: [u32; 2],
    pub slack: [u32; 2],
    pub pmin: [f64; 2],
    pub pmax: [f64; 2],
    pub c1: [f64; 2],
    pub c2: [f64; 2],
    pub a: [u32; 2],
    pub b: [u32; 2],
    pub circuits: [u32; 2],
    pub km: [f64; 2],
    pub share: [f64; 2],
    pub cap: [u32; 2],
}

pub const L: Case = Case {
    tier: [0, 0, 0],
    reading: [0.0, 25.0, 0.0],
    weight: [1.0, 2.0, 1.0],
    bus: [0, 0],
    slack: [1, 0],
    pmin: [0.0, 0.0],
    pmax: [100.0, 0.0],
    c1: [20.0, 0.0],
    c2: [0.25, 0.0],
    a: [0, 0],
    b: [1, 1],
    circuits: [1, 1],
    km: [10.0, 10.0],
    share: [1.0, 1.0],
    cap: [0, 0],
};
