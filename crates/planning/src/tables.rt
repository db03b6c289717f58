// The columns that planning reads together: of the corridors and the levels, of the buses and the units, and what the opening makes of them.
ghost use Rattle.std.specs.Prelude.{◌≡◌, length};
ghost use Rattle.planning.specs.Edges.{Grounded};
ghost use Rattle.planning.specs.Supplied.{Supplied, supply_of};

// The ladder, the columns of the corridors, and the rows of the line sheet.
#[derive(Clone, Copy)]
pub struct Grid<'a> {
    pub ladder: &'a [f64],
    pub a: &'a [u32],
    pub b: &'a [u32],
    pub km: &'a [f64],
    pub share: &'a [f64],
    pub cap: &'a [u32],
    pub sheet: &'a [f64],
}

// Each bus's load, and the columns of the units, which go with the fact that acceptance passed them.
#[derive(Clone, Copy)]
pub struct Supply<'a> {
    pub load: &'a [f64],
    pub bus: &'a [u32],
    pub slack: &'a [u32],
    pub pmin: &'a [f64],
    pub pmax: &'a [f64],
    pub c1: &'a [f64],
    pub c2: &'a [f64],
    ghost supplied: { Supplied (supply_of load.now bus.now slack.now pmin.now pmax.now c1.now c2.now) },
}

// Each bus's leader and injection, and a ground for each component.
#[derive(Clone, Copy)]
pub struct Opened<'a> {
    pub leader: &'a [u32],
    pub grounds: &'a [u32],
    pub injection: &'a [f64],
    ghost grounded: { Grounded (length leader.now) grounds.now },
    ghost injected: { length injection.now ≡ length leader.now },
}

// What planning writes goes in slices of its own and in no struct: a signature then says which of them a function writes, and a
// `&mut` slice keeps its length by its type, where every contract would have to promise it of a struct that holds one.
// `banks`, `floors` and `injection` are parts of `figures`, and `upsized`, `marks` and `leader` parts of `counts`, the work that
// `plan_corridors` is lent, and the others are its own slices for the answer: no slice of structs can stand for them.
