// The units by index, and the first of them with a fault.
ghost use Rattle.std.specs.Prelude.{◌≡◌, ◌<◌};
ghost use Rattle.loops.specs.Figures.{at};
ghost use Rattle.loops.specs.Loops.{fault};
ghost use Rattle.dispatch_defs.specs.Units.{Units, Even, units_of, count, unit_ok_at, cost_ok_at};

use crate::unit::Unit;
use std::marker::Model;

// A column for each field; a clause sees the definition's units.
#[derive(Drop)]
pub struct UnitTable<'a> {
    pub pmin: &'a [f64],
    pub pmax: &'a [f64],
    pub c1: &'a [f64],
    pub c2: &'a [f64],
}

impl<'a> Model for UnitTable<'a> {
    ghost Value = { Units };

    ghost view = { λ u. units_of u.pmin.now u.pmax.now u.c1.now u.c2.now };

    ghost invariant = { λ u. Even (units_of u.pmin.now u.pmax.now u.c1.now u.c2.now) };
}

impl<'a> UnitTable<'a> {
    pub fn len(&self) -> usize
        ensures { result ≡ count self.now }
    {
        self.pmin.len()
    }

    pub fn unit(&self, i: usize) -> Unit
        requires { i < count self.now }
        ensures pmin { result.pmin ≡ at self.now.pmin i }
        ensures pmax { result.pmax ≡ at self.now.pmax i }
        ensures c1 { result.c1 ≡ at self.now.c1 i }
        ensures c2 { result.c2 ≡ at self.now.c2 i }
    {
        // a slice of its own, of which the check sees that the index fits
        let pmin = self.pmin;
        Unit {
            pmin: pmin[i],
            pmax: self.pmax[i],
            c1: self.c1[i],
            c2: self.c2[i],
        }
    }

    // The first unit with wrong limits or costs.
    pub fn faulty_unit(&self) -> Option<usize>
        ensures { result ≡ fault (unit_ok_at self.now) (count self.now) }
    {
        loops::first_fault(self.len(), |i| self.unit(i).is_sound())
    }

    // The first unit with a cost that is not finite at a limit.
    pub fn infinite_cost(&self) -> Option<usize>
        ensures { result ≡ fault (cost_ok_at self.now) (count self.now) }
    {
        loops::first_fault(self.len(), |i| self.unit(i).has_finite_costs())
    }
}
