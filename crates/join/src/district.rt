// A district as it is lent, and 1 to 7 of it.
ghost use Rattle.std.specs.Prelude.{◌≡◌};
ghost use Rattle.acceptance.specs.Check.{check_of};
ghost use Rattle.join.specs.Joins.{case_of};

use acceptance::check_case;
use casefile_defs::Header;
use refusal::Refusal;

// A header, and tables of exactly its counts.
#[derive(Clone, Copy)]
pub struct District<'a> {
    pub header: Header,
    pub ladder: &'a [f64],
    pub tier: &'a [u32],
    pub reading: &'a [f64],
    pub weight: &'a [f64],
    pub bus: &'a [u32],
    pub slack: &'a [u32],
    pub pmin: &'a [f64],
    pub pmax: &'a [f64],
    pub c1: &'a [f64],
    pub c2: &'a [f64],
    pub a: &'a [u32],
    pub b: &'a [u32],
    pub circuits: &'a [u32],
    pub length_km: &'a [f64],
    pub share: &'a [f64],
    pub cap: &'a [u32],
    pub sheet: &'a [f64],
}

pub fn check_district(fits: bool, district: &District) -> Result<(), Refusal>
    ensures { result ≡ check_of fits (case_of district.now) district.now.header.target }
{
    let h = district.header;
    check_case(
        fits,
        h.target,
        h.buses,
        h.corridors,
        h.generators,
        h.above,
        h.requested,
        district.ladder,
        district.tier,
        district.reading,
        district.weight,
        district.bus,
        district.slack,
        district.pmin,
        district.pmax,
        district.c1,
        district.c2,
        district.a,
        district.b,
        district.circuits,
        district.length_km,
        district.share,
        district.cap,
        district.sheet,
    )
}
