// Leaders of the electrical components: two buses have one leader exactly where corridors join them.
//
// As in the Rust (`UnionFind`, geom/delaunay.rs) each bus has a parent, and the search for a root shortens the way of those that it
// passes. There a root is the leader; here a parent is never a higher bus, and a root has its set's leader for its name.
#![tactic(auto)]

ghost use Rattle.std.specs.Prelude.{◌≡◌, ◌≤◌, length};
ghost use Rattle.loops.specs.Bounds.{most_buses};
ghost use Rattle.loops.specs.Loops.{fault};
ghost use Rattle.leaders.specs.Leaders.{leaders_of};
ghost use Rattle.leaders.specs.Operation.{lengths_ok, counts_ok, corridor_ok, corridor_ok_at, Ends, check_of, outcome, led_outcome};

mod forest;

use forest::UnionFind;
use loops::{MOST_BUSES, MOST_CORRIDORS};
use refusal::Refusal;

// Each bus's leader, from sound corridors.
fn lead(a: &[u32], b: &[u32], leader: &mut [u32])
    requires { (length leader.old ≤ most_buses) × Ends (length leader.old) a.now b.now }
    ensures { leader.new ≡ leaders_of (length leader.old) a.now b.now }
{
    let mut sets = UnionFind::new();
    sets.join_all(a, b);
    sets.hand_out(leader);
}

fn lengths_ok(buses: usize, corridors: usize, a: usize, b: usize, leader: usize) -> bool
    ensures { result ≡ lengths_ok buses corridors a b leader }
{
    a == corridors && b == corridors && leader == buses
}

fn counts_ok(buses: usize, corridors: usize) -> bool
    ensures { result ≡ counts_ok buses corridors }
{
    buses <= MOST_BUSES && corridors <= MOST_CORRIDORS
}

// A corridor's ends are two different buses.
pub fn corridor_ok(buses: usize, a: usize, b: usize) -> bool
    ensures { result ≡ corridor_ok buses a b }
{
    a < buses && b < buses && a != b
}

// The first corridor with a wrong end.
fn faulty_corridor(buses: usize, a: &[u32], b: &[u32]) -> Option<usize>
    requires { length b.now ≡ length a.now }
    ensures { result ≡ fault (corridor_ok_at buses a.now b.now) (length a.now) }
{
    loops::first_fault(
        a.len(),
        |k| corridor_ok(buses, a[k] as usize, b[k] as usize),
    )
}

// The refusals, in order.
#[tactic(auto, using(loops::proofs::Scan::fault_some, loops::proofs::Scan::fault_passed), unfolding(crate::specs::Operation::tests_of))]
fn check(buses: usize, corridors: usize, a: &[u32], b: &[u32], places: usize) -> Result<(), Refusal>
    ensures { result ≡ check_of buses corridors a.now b.now places }
{
    if !lengths_ok(buses, corridors, a.len(), b.len(), places) {
        return Err(Refusal::Length);
    }
    if !counts_ok(buses, corridors) {
        return Err(Refusal::Count);
    }
    if let Some(k) = faulty_corridor(buses, a, b) {
        return Err(Refusal::Corridor(k));
    }
    Ok(())
}

// Leaves each bus's leader in `leader`; where the request is refused, `leader` keeps its contents.
#[tactic(auto, using(crate::proofs::Checks::passes, crate::proofs::Checks::ends_of_lem, crate::proofs::Checks::refused_outcome, crate::proofs::Checks::answered_outcome))]
pub fn leaders(
    buses: usize,
    corridors: usize,
    a: &[u32],
    b: &[u32],
    leader: &mut [u32],
) -> Result<(), Refusal>
    ensures { outcome result leader.new
        ≡ led_outcome buses corridors a.now b.now leader.old }
{
    check(buses, corridors, a, b, leader.len())?;
    lead(a, b, leader);
    Ok(())
}
