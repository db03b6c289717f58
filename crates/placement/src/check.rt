// What placement is asked, and its refusals 1, 2, 4, 5 and 6, in their order.
ghost use Rattle.std.specs.Prelude.{◌≡◌, length, get_or};
ghost use Rattle.loops.specs.Loops.{fault};
ghost use Rattle.placement_defs.specs.Request as asked;
ghost use Rattle.placement_defs.specs.Request.{request_of, lengths_ok, counts_ok, load_at, bus_ok, corridor_ok, corridor_at, check_of};

use loops::{MOST_BUSES, MOST_CORRIDORS, MOST_GENERATORS};
use refusal::Refusal;
use std::marker::Model;

const LONGEST_KM: f64 = 10000.0;

// n buses, m corridors and g generators, and a column for each field; a clause sees the definition's request, with the loads.
#[derive(Drop)]
pub struct Request<'a> {
    pub n: usize,
    pub m: usize,
    pub g: usize,
    pub reading: &'a [f64],
    pub weight: &'a [f64],
    pub a: &'a [u32],
    pub b: &'a [u32],
    pub km: &'a [f64],
    pub generators: &'a [u32],
}

impl<'a> Model for Request<'a> {
    ghost Value = { asked.Request };

    ghost view = { λ k. request_of k.n k.m k.g k.reading.now k.weight.now k.a.now k.b.now k.km.now k.generators.now };
}

fn corridor_ok(n: usize, a: usize, b: usize, km: f64) -> bool
    ensures { result ≡ corridor_ok n a b km }
{
    (a < n) & (b < n) & !(a == b) & ((0.0 <= km) & (km <= LONGEST_KM))
}

// A slice that is read in a closure is a local: the check then sees that the index fits.
impl<'a> Request<'a> {
    // With result slices of these lengths.
    fn lengths_ok(&self, buses: usize, mvars: usize) -> bool
        ensures { result ≡ lengths_ok self.now buses mvars }
    {
        (self.reading.len() == self.n)
            & (self.weight.len() == self.n)
            & (self.a.len() == self.m)
            & (self.b.len() == self.m)
            & (self.km.len() == self.m)
            & (self.generators.len() == self.g)
            & (buses == self.n)
            & (mvars == self.n)
    }

    fn counts_ok(&self) -> bool
        ensures { result ≡ counts_ok self.now.n self.now.m self.now.g }
    {
        (self.n <= MOST_BUSES) & (self.m <= MOST_CORRIDORS) & (self.g <= MOST_GENERATORS)
    }

    // The first bus whose reading, weight or load is out of its bounds.
    fn faulty_load(&self) -> Option<usize>
        requires { (length self.now.reading ≡ self.now.n) × (length self.now.weight ≡ self.now.n) }
        ensures { result ≡ fault (load_at self.now.reading self.now.weight) self.now.n }
    {
        let reading = self.reading;
        let weight = self.weight;
        loops::first_fault(self.n, |i| loads::load_ok(reading[i], weight[i]))
    }

    // The first generator at no bus.
    fn faulty_generator(&self) -> Option<usize>
        requires { length self.now.generators ≡ self.now.g }
        ensures { result ≡ fault (λ i. bus_ok self.now.n (get_or self.now.generators i 0)) self.now.g }
    {
        let generators = self.generators;
        loops::first_fault(self.g, |i| (generators[i] as usize) < self.n)
    }

    // The first corridor with a wrong end or length.
    fn faulty_corridor(&self) -> Option<usize>
        requires { (length self.now.a ≡ self.now.m) × (length self.now.b ≡ self.now.m) × (length self.now.km ≡ self.now.m) }
        ensures { result ≡ fault (corridor_at self.now.n self.now.a self.now.b self.now.km) self.now.m }
    {
        let a = self.a;
        let b = self.b;
        let km = self.km;
        loops::first_fault(
            self.m,
            |c| corridor_ok(self.n, a[c] as usize, b[c] as usize, km[c]),
        )
    }

    // The first refusal in order.
    #[tactic(auto, using(crate::proofs::Checks::lengths_of, crate::proofs::Checks::corridor_refused, loops::proofs::Scan::fault_some, loops::proofs::Scan::fault_passed), unfolding(placement_defs::specs::Request::tests_of))]
    pub fn check(&self, buses: usize, mvars: usize) -> Result<(), Refusal>
        ensures { result ≡ check_of self.now buses mvars }
    {
        if !self.lengths_ok(buses, mvars) {
            return Err(Refusal::Length);
        }
        if !self.counts_ok() {
            return Err(Refusal::Count);
        }
        if let Some(i) = self.faulty_load() {
            return Err(Refusal::Bus(i));
        }
        if let Some(k) = self.faulty_generator() {
            return Err(Refusal::Generator(k));
        }
        if let Some(c) = self.faulty_corridor() {
            return Err(Refusal::Corridor(c));
        }
        Ok(())
    }
}
