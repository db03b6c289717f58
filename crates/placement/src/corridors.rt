// The corridors at a bus in their order, by its list. The file of the struct cannot name the view that these clauses read, which names the struct.
ghost use Rattle.std.specs.Prelude.{◌≡◌, cond, true, ◌+◌, ◌<◌, ltb, length, Some, None};
ghost use Rattle.std.specs.Option.{ForSome};
ghost use Rattle.placement.specs.Choices.{number};
ghost use Rattle.placement.specs.Corridors.{ends_at, next_at};
ghost use Rattle.placement.specs.Views.{network_in};

use crate::network::Network;

impl<'a> Network<'a> {
    // A corridor as the lists keep it.
    fn kept(&self, c: u16) -> Option<usize>
        ensures { result ≡ cond (ltb c (length self.now.a.now)) (Some c) None }
    {
        let c = c as usize;
        if c < self.a.len() { Some(c) } else { None }
    }

    // The first corridor at bus i.
    pub fn first(&self, i: usize) -> Option<usize>
        requires { i < self.now.n }
        ensures corridor { ForSome result (λ c. c < length self.now.a.now) }
        ensures value { number (length self.now.a.now) result ≡ next_at (network_in self.now) i 0 }
    {
        self.kept(self.lists.head[i])
    }

    // The one at bus i after corridor c, which ends there: of those that come next at its ends.
    pub fn after(&self, c: usize, i: usize) -> Option<usize>
        requires { (c < length self.now.a.now) × (ends_at (network_in self.now) i c ≡ true) }
        ensures corridor { ForSome result (λ e. e < length self.now.a.now) }
        ensures value { number (length self.now.a.now) result ≡ next_at (network_in self.now) i (c + 1) }
    {
        if self.a[c] as usize == i {
            self.kept(self.lists.after_a[c])
        } else {
            self.kept(self.lists.after_b[c])
        }
    }
}
