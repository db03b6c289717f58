// Refusal 1 of the lent slices. The counts are as given, so that a sum or a product of them may not fit: these ask without it.
ghost use Rattle.std.specs.Prelude.{◌≡◌};
ghost use Rattle.planning.specs.Lent.{work_in, places_ok};

// Places of each work slice for each bus, corridor and generator.
pub const WORK_ROWS: usize = 12;

// How many places the lent slices have.
#[derive(Clone, Copy)]
pub struct LentPlaces {
    pub circuits: usize,
    pub flow: usize,
    pub rate: usize,
    pub before: usize,
    pub order: usize,
    pub cap: usize,
    pub mw: usize,
    pub angle: usize,
    pub tier: usize,
    pub ground: usize,
    pub added: usize,
    pub figures: usize,
    pub counts: usize,
}

fn work_ok(places: usize, n: usize, m: usize, g: usize) -> bool
    ensures { result ≡ work_in n m g places }
{
    let rows = places / WORK_ROWS;
    if places % WORK_ROWS != 0 {
        return false;
    }
    if n > rows {
        return false;
    }
    let rest = rows - n;
    if m > rest {
        return false;
    }
    rest - m == g
}

pub fn places_ok(n: usize, m: usize, g: usize, above: usize, p: LentPlaces) -> bool
    ensures { result ≡ places_ok n m g above p }
{
    let corridors = (p.circuits == m) & (p.flow == m) & (p.rate == m);
    let kept = (p.before == m) & (p.order == m) & (p.cap == m);
    let buses = (p.angle == n) & (p.tier == n) & (p.ground == n);
    let work = work_ok(p.figures, n, m, g) & work_ok(p.counts, n, m, g);
    corridors & kept & (p.mw == g) & buses & (p.added == above) & work
}
