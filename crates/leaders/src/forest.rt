// The buses' sets as a forest, after `UnionFind` of geom/delaunay.rs.
ghost use Rattle.loops.specs.Bounds.{most_buses};
ghost use Rattle.std.specs.Prelude.{◌≡◌, ◌<◌, ◌≤◌, length};
ghost use Rattle.leaders.specs.Leaders.{themselves};
ghost use Rattle.leaders.specs.Operation.{Ends};
ghost use Rattle.leaders.specs.Forest.{Down, Root, Found, Joined, AllJoined, HandedOut};

use loops::MOST_BUSES;

// Each bus's parent, and the name of the set of each that is its own parent.
#[derive(Drop)]
pub struct UnionFind {
    parent: [u8; MOST_BUSES],
    name: [u8; MOST_BUSES],
    // A parent is never a higher bus.
    ghost down: { Down parent },
}

// Each bus by its own number.
#[tactic(auto, unfolding(crate::specs::Leaders::themselves))]
fn themselves() -> [u8; MOST_BUSES]
    ensures { result ≡ themselves most_buses }
{
    std::array::from_fn(|i| i as u8)
}

impl UnionFind {
    // At first each bus leads itself.
    #[tactic(auto, using(crate::proofs::Forests::down_first))]
    pub fn new() -> Self
        ensures parent { result.parent ≡ themselves most_buses }
        ensures name { result.name ≡ themselves most_buses }
    {
        let parent = themselves();
        UnionFind {
            parent,
            name: parent,
        }
    }

    // The root of x's set. Each bus that is passed takes its parent's parent.
    fn find(&mut self, x: usize) -> usize
        requires { x < most_buses }
        ensures found { Found x self.old.parent self.new.parent result }
        ensures named { self.new.name ≡ self.old.name }
    {
        let mut at = x;
        let mut up = self.parent[at] as usize;
        // A walk up the parents: no index is counted.
        while up != at {
            let above = self.parent[up];
            self.parent[at] = above;
            at = above as usize;
            up = self.parent[at] as usize;
        }
        at
    }

    // Joins the set of the root `from` to that of the root `to`, whose leader it takes.
    fn link(&mut self, from: usize, to: usize)
        requires bound { (from < most_buses) × (to < most_buses) }
        requires root { Root self.old.parent from × Root self.old.parent to }
        ensures { Joined from to self.old.parent self.old.name self.new.parent self.new.name }
    {
        if from < to {
            self.name[from] = self.name[to];
            self.parent[to] = from as u8;
        } else {
            self.parent[from] = to as u8;
        }
    }

    // Joins a's set to b's.
    fn join(&mut self, a: usize, b: usize)
        requires { (a < most_buses) × (b < most_buses) }
        ensures { Joined a b self.old.parent self.old.name self.new.parent self.new.name }
    {
        let from = self.find(a);
        let to = self.find(b);
        self.link(from, to);
    }

    // Joins the ends of each corridor, in order.
    pub fn join_all(&mut self, a: &[u32], b: &[u32])
        requires { Ends most_buses a.now b.now }
        ensures { AllJoined a.now b.now (length a.now) self.old.parent self.old.name self.new.parent self.new.name }
    {
        for (a, b) in a.iter().zip(b) {
            self.join(*a as usize, *b as usize);
        }
    }

    // Each bus's leader: a root's name, else its parent's leader, which stands there already.
    pub fn hand_out(&self, leader: &mut [u32])
        requires { length leader.old ≤ most_buses }
        ensures { HandedOut (length leader.old) self.now.parent self.now.name (length leader.old) leader.new }
    {
        for bus in 0..leader.len() {
            let up = self.parent[bus] as usize;
            leader[bus] = if up == bus {
                self.name[bus] as u32
            } else {
                leader[up]
            };
        }
    }
}
