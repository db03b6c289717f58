// An order by three keys, each a figure for each index.
ghost use Rattle.std.specs.Prelude.{◌≡◌, ℕ, ◌<◌, ◌≤◌, All, length, position};
ghost use Rattle.plan_defs.specs.Constants.{most_corridors};
ghost use Rattle.planning.specs.Fill.{rank_before, order_by};

use arrayvec::ArrayVec;
use loops::MOST_CORRIDORS;

// The first falling, the second falling, the third rising, then index. Of corridors these are loading, kV and length.
#[derive(Clone, Copy)]
pub struct Keys<'a> {
    pub first: &'a [f64],
    pub second: &'a [f64],
    pub third: &'a [f64],
    ghost first_even: { length first.now ≡ length third.now },
    ghost second_even: { length second.now ≡ length third.now },
}

impl Keys<'_> {
    // Whether k comes before j, which has a lower index.
    fn before(&self, k: usize, j: usize) -> bool
        requires { (k < length self.now.third.now) × (j < length self.now.third.now) }
        ensures { result ≡ rank_before self.now.first.now self.now.second.now self.now.third.now k j }
    {
        let by_first = self.first[j] < self.first[k];
        let first_ties = self.first[j] == self.first[k];
        let by_second = self.second[j] < self.second[k];
        let second_ties = self.second[j] == self.second[k];
        by_first | (first_ties & (by_second | (second_ties & (self.third[k] < self.third[j]))))
    }

    // The place of k in an order, where it comes before another.
    // It shares std's `position` with `place_of` of stiffen, and no more: the test is another.
    fn place(&self, order: &[u32], k: usize) -> Option<usize>
        requires k_in_bounds { k < length self.now.third.now }
        requires named { All (λ (j : ℕ). j < length self.now.third.now) order.now }
        ensures { result ≡ position (rank_before self.now.first.now self.now.second.now self.now.third.now k) order.now }
    {
        order.iter().position(|j| self.before(k, *j as usize))
    }

    // The indices in order.
    #[tactic(auto, using(crate::proofs::Insertion::order_size))]
    pub fn order(&self) -> ArrayVec<u32, MOST_CORRIDORS>
        requires { length self.now.third.now ≤ most_corridors }
        ensures { result.items ≡ order_by (rank_before self.now.first.now self.now.second.now self.now.third.now) (length self.now.third.now) }
    {
        let mut order = ArrayVec::new();
        for k in 0..self.third.len() {
            let place = self.place(&order, k).unwrap_or(order.len());
            order.insert(place, k as u32);
        }
        order
    }
}
