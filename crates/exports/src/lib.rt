// Operations under C names, for a driver in C or Rust such as bench/: what an operation answers comes back in the fields of a struct.
// exports_c has their symbols. Each slice is a parameter of its own: the C interface.
#![tactic(auto)]

mod said;

ghost use Rattle.std.specs.Prelude.{◌≡◌};
ghost use Rattle.angles_defs.specs.Operation.{request_of, dc_angles};
ghost use Rattle.casefile_defs.specs.Tables.{places_of, read_case};
ghost use Rattle.dispatch_defs.specs.Operation.{dispatched};
ghost use Rattle.dispatch_defs.specs.Units.{units_of};
ghost use Rattle.leaders.specs.Operation.{led_outcome};
ghost use Rattle.line_defs.specs.Sheet.{line_sheet};
ghost use Rattle.placement_defs.specs.Request as asked;
ghost use Rattle.placement_defs.specs.Support.{placement};
ghost use Rattle.exports.specs.Said.{angles_said, case_said, answer_said, placement_said};

// The answer of `dc_angles`. A field that has nothing to say is 0.
#[repr(C)]
#[derive(Clone, Copy)]
pub struct AnglesSaid {
    // Document 01's number and index of the refusal; 0 where the request is answered.
    pub refusal: u32,
    pub index: usize,
    // How often x was moved.
    pub steps: usize,
    // How the solve ended: 1 settled, 2 no descent, 3 steps spent; and its last figure.
    pub ended: u32,
    pub figure: f64,
}

// The answer of `read_case`. A field that has nothing to say is 0.
#[repr(C)]
#[derive(Clone, Copy)]
pub struct ReadingSaid {
    // Document 01's number and index of the refusal; 0 where the file is read.
    pub refusal: u32,
    pub index: usize,
    // The header, the mode by document 01's number.
    pub mode: u32,
    pub target: u32,
    pub buses: usize,
    pub corridors: usize,
    pub generators: usize,
    pub above: usize,
    pub requested: usize,
    // The words and bytes looked at after the last record.
    pub looks: usize,
}

// The answer of an operation that leaves its results in a slice: the documents' number and index of the refusal; 0 where it is answered.
#[repr(C)]
#[derive(Clone, Copy)]
pub struct AnswerSaid {
    pub refusal: u32,
    pub index: usize,
}

// The answer of `place_voltage_support`: document 01's number and index of the refusal, 0 where it is answered, and then the count of
// condensers.
#[repr(C)]
#[derive(Clone, Copy)]
pub struct PlacementSaid {
    pub refusal: u32,
    pub index: usize,
    pub count: usize,
}

#[tactic(auto, using(crate::proofs::Told::angles_told))]
pub fn lopnaski_dc_angles(
    n: usize,
    m: usize,
    k: usize,
    from: &[u32],
    to: &[u32],
    weight: &[f64],
    injection: &[f64],
    grounds: &[u32],
    guess: &[f64],
    res: &mut [f64],
    work: &mut [f64],
) -> AnglesSaid
    ensures said { result ≡ angles_said (dc_angles (request_of n m k from.now to.now weight.now injection.now grounds.now guess.now)
        res.old work.old).reply }
    ensures angles { res.new ≡ (dc_angles (request_of n m k from.now to.now weight.now injection.now grounds.now guess.now)
        res.old work.old).result }
    ensures cleared { work.new ≡ (dc_angles (request_of n m k from.now to.now weight.now injection.now grounds.now guess.now)
        res.old work.old).work }
{
    AnglesSaid::from(angles::dc_angles(
        n, m, k, from, to, weight, injection, grounds, guess, res, work,
    ))
}

#[tactic(auto, using(crate::proofs::Told::reading_told))]
pub fn lopnaski_read_case(
    file: &[u8],
    ladder: &mut [f64],
    tier: &mut [u32],
    reading: &mut [f64],
    weight: &mut [f64],
    generator_bus: &mut [u32],
    slack: &mut [u32],
    pmin: &mut [f64],
    pmax: &mut [f64],
    c1: &mut [f64],
    c2: &mut [f64],
    a: &mut [u32],
    b: &mut [u32],
    circuits: &mut [u32],
    length_km: &mut [f64],
    share: &mut [f64],
    cap: &mut [u32],
    sheet: &mut [f64],
) -> ReadingSaid
    ensures said { result ≡ case_said (read_case file.now (places_of ladder.old tier.old reading.old weight.old generator_bus.old slack.old pmin.old pmax.old c1.old c2.old a.old b.old circuits.old length_km.old share.old cap.old sheet.old)) }
    ensures tables { places_of ladder.new tier.new reading.new weight.new generator_bus.new slack.new pmin.new pmax.new c1.new c2.new a.new b.new circuits.new length_km.new share.new cap.new sheet.new ≡ (read_case file.now (places_of ladder.old tier.old reading.old weight.old generator_bus.old slack.old pmin.old pmax.old c1.old c2.old a.old b.old circuits.old length_km.old share.old cap.old sheet.old)).places }
{
    ReadingSaid::from(casefile::read_case(
        file,
        ladder,
        tier,
        reading,
        weight,
        generator_bus,
        slack,
        pmin,
        pmax,
        c1,
        c2,
        a,
        b,
        circuits,
        length_km,
        share,
        cap,
        sheet,
    ))
}

#[tactic(auto, using(crate::proofs::Told::sheet_told))]
pub fn lopnaski_line_sheet(
    levels: usize,
    corridors: usize,
    ladder: &[f64],
    km: &[f64],
    spread: &[f64],
    sheet: &mut [f64],
) -> AnswerSaid
    ensures said { result ≡ answer_said (line_sheet levels corridors ladder.now km.now spread.now sheet.old).reply }
    ensures rows { sheet.new ≡ (line_sheet levels corridors ladder.now km.now spread.now sheet.old).sheet }
{
    AnswerSaid::from(line_sheet::line_sheet(levels, corridors, ladder, km, spread, sheet))
}

#[tactic(auto, using(crate::proofs::Told::dispatch_told))]
pub fn lopnaski_economic_dispatch(
    units: usize,
    pmin: &[f64],
    pmax: &[f64],
    c1: &[f64],
    c2: &[f64],
    demand: f64,
    mw: &mut [f64],
) -> AnswerSaid
    ensures said { result ≡ answer_said (dispatched units (units_of pmin.now pmax.now c1.now c2.now) demand mw.old).reply }
    ensures given { mw.new ≡ (dispatched units (units_of pmin.now pmax.now c1.now c2.now) demand mw.old).mw }
{
    AnswerSaid::from(dispatch::economic_dispatch(units, pmin, pmax, c1, c2, demand, mw))
}

#[tactic(auto, using(crate::proofs::Told::leaders_told))]
pub fn lopnaski_leaders(
    buses: usize,
    corridors: usize,
    a: &[u32],
    b: &[u32],
    leader: &mut [u32],
) -> AnswerSaid
    ensures said { result ≡ answer_said (led_outcome buses corridors a.now b.now leader.old).reply }
    ensures led { leader.new ≡ (led_outcome buses corridors a.now b.now leader.old).leader }
{
    AnswerSaid::from(leaders::leaders(buses, corridors, a, b, leader))
}

#[tactic(auto, using(crate::proofs::Told::placement_told))]
pub fn lopnaski_place_voltage_support(
    n: usize,
    m: usize,
    g: usize,
    reading: &[f64],
    weight: &[f64],
    a: &[u32],
    b: &[u32],
    km: &[f64],
    generators: &[u32],
    buses: &mut [u32],
    mvars: &mut [f64],
) -> PlacementSaid
    ensures said { result ≡ placement_said (placement (asked.request_of n m g reading.now weight.now a.now b.now km.now generators.now) buses.old mvars.old).reply }
    ensures stand { buses.new ≡ (placement (asked.request_of n m g reading.now weight.now a.now b.now km.now generators.now) buses.old mvars.old).buses }
    ensures sized { mvars.new ≡ (placement (asked.request_of n m g reading.now weight.now a.now b.now km.now generators.now) buses.old mvars.old).mvars }
{
    PlacementSaid::from(placement::place_voltage_support(
        n, m, g, reading, weight, a, b, km, generators, buses, mvars,
    ))
}
