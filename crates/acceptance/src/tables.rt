// The tables of a case, and the refusals 2 to 7: the counts, and the rows of one table after another.
ghost use Rattle.std.specs.Prelude.{◌≡◌, ◌+◌, ◌*◌, ◌<◌};
ghost use Rattle.loops.specs.Loops.{fault};
ghost use Rattle.loops.specs.Verdict.{verdict};
ghost use Rattle.plan_defs.specs.Case.{levels, row_of};
ghost use Rattle.plan_defs.specs.Accept.{counts_ok, level_ok, bus_ok, generator_ok, corridor_sound, row_sound, row_ok, tables_tests};
ghost use Rattle.acceptance.specs.Check.{Tables, tables_of, tabled, Columns};

use dispatch_defs::unit_ok;
use leaders::corridor_ok;
use loads::load_ok;
use loops::{
    MOST_BUSES, MOST_CAP, MOST_CORRIDORS, MOST_GENERATORS, MOST_INITIAL, MOST_LEVELS, MOST_TARGET,
};
use refusal::Refusal;
use sheets::{ROW_FIGURES, line_place};
use std::marker::Model;

const MOST_KV: f64 = 10000.0;

const MOST_KM: f64 = 10000.0;

const LEAST_SHARE: f64 = 0.5;

const LEAST_RATE: f64 = 0.001;

const MOST_RATE: f64 = 1e6;

// Two kV that differ by no more are one level.
const KV_TOLERANCE: f64 = 1e-6;

// The counts, and a column for each field, all of their lengths; a clause sees the case.
#[derive(Drop)]
pub struct CaseTables<'a> {
    pub buses: usize,
    pub corridors: usize,
    pub generators: usize,
    pub above: usize,
    pub requested: usize,
    pub ladder: &'a [f64],
    pub tier: &'a [u32],
    pub reading: &'a [f64],
    pub weight: &'a [f64],
    pub bus: &'a [u32],
    pub slack: &'a [u32],
    pub pmin: &'a [f64],
    pub pmax: &'a [f64],
    pub c1: &'a [f64],
    pub c2: &'a [f64],
    pub a: &'a [u32],
    pub b: &'a [u32],
    pub initial: &'a [u32],
    pub km: &'a [f64],
    pub share: &'a [f64],
    pub cap: &'a [u32],
    pub sheet: &'a [f64],
}

impl<'a> Model for CaseTables<'a> {
    ghost Value = { Tables };

    ghost view = { λ t. tables_of t.buses t.corridors t.generators t.above t.requested t.ladder.now t.tier.now t.reading.now t.weight.now t.bus.now t.slack.now t.pmin.now t.pmax.now t.c1.now t.c2.now t.a.now t.b.now t.initial.now t.km.now t.share.now t.cap.now t.sheet.now };

    ghost invariant = { λ t. Columns (tables_of t.buses t.corridors t.generators t.above t.requested t.ladder.now t.tier.now t.reading.now t.weight.now t.bus.now t.slack.now t.pmin.now t.pmax.now t.c1.now t.c2.now t.a.now t.b.now t.initial.now t.km.now t.share.now t.cap.now t.sheet.now) };
}

// A slice that is read first is a local: the check then sees that the index fits.
impl<'a> CaseTables<'a> {
    // 2.
    #[tactic(auto, unfolding(plan_defs::specs::Accept::counts_ok))]
    fn counts_ok(&self, target: u32) -> bool
        ensures { result ≡ counts_ok (tabled self.now) target }
    {
        self.buses <= MOST_BUSES
            && self.corridors <= MOST_CORRIDORS
            && self.generators <= MOST_GENERATORS
            && 1 <= self.requested
            && self.ladder.len() <= MOST_LEVELS
            && target <= MOST_TARGET
    }

    // ---- a row of a table
    #[tactic(auto, unfolding(plan_defs::specs::Accept::level_ok))]
    fn level_ok(&self, i: usize) -> bool
        requires { i < levels (tabled self.now) }
        ensures { result ≡ level_ok (tabled self.now) i }
    {
        let ladder = self.ladder;
        let kv = ladder[i];
        let is_last = ladder.len() <= i + 1;
        0.0 < kv && kv <= MOST_KV && (is_last || ladder[i + 1] + KV_TOLERANCE < kv)
    }

    #[tactic(auto, using(crate::proofs::Checks::load_is), unfolding(plan_defs::specs::Accept::bus_ok))]
    fn bus_ok(&self, i: usize) -> bool
        requires { i < self.now.buses }
        ensures { result ≡ bus_ok (tabled self.now) i }
    {
        let tier = self.tier;
        (tier[i] as usize) < self.requested && load_ok(self.reading[i], self.weight[i])
    }

    #[tactic(auto, unfolding(plan_defs::specs::Accept::generator_ok))]
    fn generator_ok(&self, k: usize) -> bool
        requires { k < self.now.generators }
        ensures { result ≡ generator_ok (tabled self.now) k }
    {
        let bus = self.bus;
        (bus[k] as usize) < self.buses
            && self.slack[k] <= 1
            && unit_ok(self.pmin[k], self.pmax[k], self.c1[k], self.c2[k])
    }

    #[tactic(auto, unfolding(plan_defs::specs::Accept::corridor_sound))]
    fn corridor_ok(&self, k: usize) -> bool
        requires { k < self.now.corridors }
        ensures { result ≡ corridor_sound (tabled self.now) k }
    {
        let ends = corridor_ok(self.buses, self.a[k] as usize, self.b[k] as usize);
        let km = self.km[k];
        let share = self.share[k];
        ends && self.initial[k] <= MOST_INITIAL
            && (0.0 <= km && km <= MOST_KM)
            && (LEAST_SHARE <= share && share <= 1.0)
            && self.cap[k] <= MOST_CAP
    }

    // Row i in the order of corridor, then level, however the rows lie.
    #[tactic(auto, using(sheets::proofs::Layouts::line_place_inside, crate::proofs::Checks::some_level, crate::proofs::Checks::row_is), unfolding(plan_defs::specs::Accept::row_ok, plan_defs::specs::Case::row_at))]
    fn row_ok(&self, i: usize) -> bool
        requires { i < self.now.corridors * levels (tabled self.now) }
        ensures { result ≡ row_ok (tabled self.now) i }
    {
        let sheet = self.sheet;
        let p = line_place(self.corridors, self.ladder.len(), i);
        row_sound(
            sheet[p],
            sheet[p + 1],
            sheet[p + 2],
            sheet[p + 3],
            sheet[p + 4],
        )
    }

    // ---- the first of each table that is not sound
    fn faulty_level(&self) -> Option<usize>
        ensures { result ≡ fault (level_ok (tabled self.now)) (levels (tabled self.now)) }
    {
        loops::first_fault(self.ladder.len(), |i| self.level_ok(i))
    }

    fn faulty_bus(&self) -> Option<usize>
        ensures { result ≡ fault (bus_ok (tabled self.now)) self.now.buses }
    {
        loops::first_fault(self.buses, |i| self.bus_ok(i))
    }

    fn faulty_generator(&self) -> Option<usize>
        ensures { result ≡ fault (generator_ok (tabled self.now)) self.now.generators }
    {
        loops::first_fault(self.generators, |k| self.generator_ok(k))
    }

    fn faulty_corridor(&self) -> Option<usize>
        ensures { result ≡ fault (corridor_sound (tabled self.now)) self.now.corridors }
    {
        loops::first_fault(self.corridors, |k| self.corridor_ok(k))
    }

    fn faulty_row(&self) -> Option<usize>
        ensures { result ≡ fault (row_ok (tabled self.now)) (self.now.corridors * levels (tabled self.now)) }
    {
        loops::first_fault(self.sheet.len() / ROW_FIGURES, |i| self.row_ok(i))
    }

    // The refusals 2 to 7, in order.
    #[tactic(auto, using(loops::proofs::Scan::fault_some, loops::proofs::Scan::fault_passed), unfolding(plan_defs::specs::Accept::tables_tests))]
    pub fn check(&self, target: u32) -> Result<(), Refusal>
        ensures { result ≡ verdict (tables_tests (tabled self.now) target) }
    {
        if !self.counts_ok(target) {
            return Err(Refusal::Count);
        }
        if let Some(l) = self.faulty_level() {
            return Err(Refusal::Level(l));
        }
        if let Some(i) = self.faulty_bus() {
            return Err(Refusal::Bus(i));
        }
        if let Some(k) = self.faulty_generator() {
            return Err(Refusal::Generator(k));
        }
        if let Some(k) = self.faulty_corridor() {
            return Err(Refusal::Corridor(k));
        }
        if let Some(i) = self.faulty_row() {
            return Err(Refusal::Row(i));
        }
        Ok(())
    }
}

// Five figures by themselves: a row is read in one place here, and the structs of the same fields belong to line_defs and
// casefile_writer, on which no plan stands.
fn row_sound(r: f64, x: f64, b: f64, rate: f64, basis: f64) -> bool
    ensures { result ≡ row_sound (row_of r x b rate basis) }
{
    let series = 0.0 <= r && loops::is_finite(r);
    let reactance = 0.0 < x && loops::is_finite(x);
    let charging = 0.0 <= b && loops::is_finite(b);
    let rating = LEAST_RATE <= rate && rate <= MOST_RATE;
    series && reactance && charging && rating && (basis == 0.0 || basis == 1.0)
}
