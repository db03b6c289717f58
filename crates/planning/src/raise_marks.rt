// Raises of buses to a higher level, after `mark_raise_to` and `raise_buses` of planning.rs. Levels count from the highest, so that a
// raise lowers the number. A mark at a bus is 0 for none, and t + 1 for a raise to level t.
// They stay numbers: `no_marks`, `mark_if` and `raised_levels` of the definition are over lists of numbers, so that with an Option for
// each bus every clause over marks would carry the coding of such a list to numbers. `raise_of` takes one mark apart.
ghost use Rattle.std.specs.Prelude.{◌≡◌, ◌<◌, ◌≤◌, length};
ghost use Rattle.plan_defs.specs.Constants.{most_buses};
ghost use Rattle.plan_defs.specs.Raise.{raise_of, marked, mark_both, can_raise, mark_if, raised_levels, moved_buses};
ghost use Rattle.planning.specs.RaiseMarks.{largest_count, pairs_for, PairFits};

use crate::tables::Grid;

// ---- marks
// A mark after a raise to level t: the higher of the two.
fn marked(mark: u32, t: u32) -> u32
    requires { t < largest_count }
    ensures { result ≡ marked mark t }
{
    if mark == 0 { t + 1 } else { mark.min(t + 1) }
}

fn mark_both(t: u32, i: usize, j: usize, marks: &mut [u32])
    requires { (t < largest_count) × (i < length marks.old) × (j < length marks.old) }
    ensures { marks.new ≡ mark_both t i j marks.old }
{
    marks[i] = marked(marks[i], t);
    marks[j] = marked(marks[j], t);
}

// Marks both ends of corridor k for the level above its higher end's, where that end is below `top`, and answers whether it is.
pub fn mark_raise_to(level: &[u32], grid: &Grid, k: usize, top: u32, marks: &mut [u32]) -> bool
    requires { PairFits level.now grid.now.a.now grid.now.b.now marks.old k }
    ensures marks { marks.new ≡ mark_if (can_raise (pairs_for grid.now.a.now grid.now.b.now) level.now top k) (pairs_for grid.now.a.now grid.now.b.now) level.now k marks.old }
    ensures answer { result ≡ can_raise (pairs_for grid.now.a.now grid.now.b.now) level.now top k }
{
    let i = grid.a[k] as usize;
    let j = grid.b[k] as usize;
    let tier = level[i].min(level[j]);
    if tier <= top {
        return false;
    }
    mark_both(tier - 1, i, j, marks);
    true
}

// ---- raises
// The level that a mark asks for.
pub fn raise_of(mark: u32) -> Option<u32>
    ensures { result ≡ raise_of mark }
{
    mark.checked_sub(1)
}

// Raises each marked bus, and answers how many moved. By index: with `level.iter_mut().zip(marks)`, which was tried, the invariant has the
// iterator in the place of the list of levels, and did not prove.
pub fn raise_buses(marks: &[u32], level: &mut [u32]) -> u32
    requires { (length marks.now ≡ length level.old) × (length level.old ≤ most_buses) }
    ensures count { result ≡ moved_buses level.old marks.now }
    ensures levels { level.new ≡ raised_levels level.old marks.now }
{
    let mut moved = 0;
    for i in 0..level.len() {
        let Some(to) = raise_of(marks[i]) else {
            continue;
        };
        if to < level[i] {
            level[i] = to;
            moved += 1;
        }
    }
    moved
}
