// What a solve is asked, and the refusals 1, 2 and 10, in their order.
ghost use Rattle.std.specs.Prelude.{◌≡◌, length};
ghost use Rattle.loops.specs.Loops.{fault};
ghost use Rattle.angles_defs.specs.Operation as asked;
ghost use Rattle.angles_defs.specs.Operation.{request_of, lengths_ok, counts_ok, edge_ok, ground_ok, check_of};

use loops::{MOST_BUSES, MOST_CORRIDORS};
use refusal::Refusal;
use std::marker::Model;

// The places of the work slice for each bus.
const ROWS: usize = 8;

// n buses, m edges and k grounds, and a column for each field; a clause sees the definition's request.
#[derive(Drop)]
pub struct Request<'a> {
    pub n: usize,
    pub m: usize,
    pub k: usize,
    pub from: &'a [u32],
    pub to: &'a [u32],
    pub weight: &'a [f64],
    pub injection: &'a [f64],
    pub grounds: &'a [u32],
    pub guess: &'a [f64],
}

impl<'a> Model for Request<'a> {
    ghost Value = { asked.Request };

    ghost view = { λ q. request_of q.n q.m q.k q.from.now q.to.now q.weight.now q.injection.now q.grounds.now q.guess.now };
}

impl<'a> Request<'a> {
    // With a result and a work slice of these lengths.
    fn lengths_ok(&self, res: usize, work: usize) -> bool
        ensures { result ≡ lengths_ok self.now res work }
    {
        // Of a slice's length the product below fits.
        if self.injection.len() != self.n {
            return false;
        }
        (self.from.len() == self.m)
            & (self.to.len() == self.m)
            & (self.weight.len() == self.m)
            & (self.grounds.len() == self.k)
            & (self.guess.len() == self.n)
            & (res == self.n)
            & (work == ROWS * self.n)
    }

    fn counts_ok(&self) -> bool
        ensures { result ≡ counts_ok self.now.n self.now.m self.now.k }
    {
        (self.n <= MOST_BUSES) & (self.m <= MOST_CORRIDORS) & (self.k <= MOST_BUSES)
    }

    // The first edge with an end that is no bus.
    fn faulty_edge(&self) -> Option<usize>
        requires { (length self.now.edges.from ≡ self.now.m) × (length self.now.edges.to ≡ self.now.m) }
        ensures { result ≡ fault (edge_ok self.now.n self.now.edges.from self.now.edges.to) self.now.m }
    {
        let from = self.from;
        let to = self.to;
        loops::first_fault(
            self.m,
            |e| ((from[e] as usize) < self.n) & ((to[e] as usize) < self.n),
        )
    }

    // The first ground that is no bus.
    fn faulty_ground(&self) -> Option<usize>
        requires { length self.now.grounds ≡ self.now.k }
        ensures { result ≡ fault (ground_ok self.now.n self.now.grounds) self.now.k }
    {
        let grounds = self.grounds;
        loops::first_fault(self.k, |g| (grounds[g] as usize) < self.n)
    }

    // The first refusal in order.
    #[tactic(auto, using(loops::proofs::Scan::fault_some, loops::proofs::Scan::fault_passed, angles_defs::proofs::Answers::lengths_of), unfolding(angles_defs::specs::Operation::tests_of))]
    pub fn check(&self, res: usize, work: usize) -> Result<(), Refusal>
        ensures { result ≡ check_of self.now res work }
    {
        if !self.lengths_ok(res, work) {
            return Err(Refusal::Length);
        }
        if !self.counts_ok() {
            return Err(Refusal::Count);
        }
        if let Some(e) = self.faulty_edge() {
            return Err(Refusal::Edge(e));
        }
        if let Some(g) = self.faulty_ground() {
            return Err(Refusal::Ground(g));
        }
        Ok(())
    }
}
