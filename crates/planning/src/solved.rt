// What stiffening reads of a round, in a file of its own: what it is known to be speaks of the other tables.
ghost use Rattle.planning.specs.Stiffen.{Solvable};
ghost use Rattle.planning.specs.Tables.{SolvedColumns, grid_in, opened_in, solved_by};

use crate::budgets::Limits;
use crate::edges::Edges;
use crate::tables::{Grid, Opened};
use std::marker::Model;

// The budgets, the tables at the round's levels, and the edges and the angles of its solve.
// A clause sees the columns, which are of one size and in their bounds.
#[derive(Drop)]
pub struct Solved<'a> {
    pub g: Limits,
    pub grid: &'a Grid<'a>,
    pub level: &'a [u32],
    pub opened: &'a Opened<'a>,
    pub e: &'a Edges,
    pub angle: &'a [f64],
}

impl<'a> Model for Solved<'a> {
    ghost Value = { SolvedColumns };

    ghost view = { λ s. solved_by s.g (grid_in s.grid.now) s.level.now (opened_in s.opened.now) s.e.now s.angle.now };

    ghost invariant = { λ s. Solvable (solved_by s.g (grid_in s.grid.now) s.level.now (opened_in s.opened.now) s.e.now s.angle.now) };
}
