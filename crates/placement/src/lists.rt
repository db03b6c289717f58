// The corridors at each bus as a list in the order of the table: the first corridor of each bus, and after each corridor the next one at
// either of its ends.
ghost use Rattle.std.specs.Prelude.{◌≡◌, ◌<◌, get_or, set, length};
ghost use Rattle.placement_defs.specs.Request.{most_buses, most_corridors, Net};
ghost use Rattle.placement_defs.specs.Distance.{network};
ghost use Rattle.placement.specs.Corridors.{blank_lists, Listed};

use crate::check::Request;
use loops::{MOST_BUSES, MOST_CORRIDORS};

// No corridor: more than any.
const NONE: u16 = 0xffff;

// Sixteen binary digits, with NONE for none: an Option of as many takes twice the place, which a request of two buses pays for too, and the
// lists would have to carry beside it that each corridor is one of the table, which the test in `kept` shows here. They stand where they are
// made, and a network refers to them, since to move them costs as much as to make them.
#[derive(Drop)]
pub struct Lists {
    pub head: [u16; MOST_BUSES],
    pub after_a: [u16; MOST_CORRIDORS],
    pub after_b: [u16; MOST_CORRIDORS],
}

impl Lists {
    // To start with, no corridor is listed.
    pub fn blank() -> Lists
        ensures { result ≡ blank_lists }
    {
        Lists {
            head: [NONE; MOST_BUSES],
            after_a: [NONE; MOST_CORRIDORS],
            after_b: [NONE; MOST_CORRIDORS],
        }
    }

    // Puts corridor c before those listed: it is the first at both its ends, and those that were the first come after it.
    fn put(&mut self, c: usize, a: usize, b: usize)
        requires { (c < most_corridors) × (a < most_buses) × (b < most_buses) }
        ensures head_after { self.new.head ≡ set (set self.old.head a c) b c }
        ensures after_a_after { self.new.after_a ≡ set self.old.after_a c (get_or self.old.head a 0) }
        ensures after_b_after { self.new.after_b ≡ set self.old.after_b c (get_or (set self.old.head a c) b 0) }
    {
        self.after_a[c] = self.head[a];
        self.head[a] = c as u16;
        self.after_b[c] = self.head[b];
        self.head[b] = c as u16;
    }

    // The corridors are listed from the last to the first, so that each bus has them in the order of the table.
    pub fn list(&mut self, request: &Request)
        requires net { Net request.now.n (length request.now.a) request.now.a request.now.b request.now.km }
        requires blank { self.old ≡ blank_lists }
        ensures { Listed (network request.now.n (length request.now.a) request.now.a request.now.b request.now.km) 0 self.new.head self.new.after_a self.new.after_b }
    {
        let a = request.a;
        let b = request.b;
        for c in (0..a.len()).rev() {
            self.put(c, a[c] as usize, b[c] as usize);
        }
    }
}
