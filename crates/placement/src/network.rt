// What a search reads: the loads of the buses, the corridors between them, and the lists of the corridors at each bus. The lists are made once,
// so that the search looks only at the corridors of the bus that it settles.
ghost use Rattle.std.specs.Prelude.{◌≡◌, ◌<◌, length};
ghost use Rattle.loops.specs.Figures.{at};
ghost use Rattle.loads.specs.Load.{loads_of};
ghost use Rattle.placement_defs.specs.Request.{Net};
ghost use Rattle.placement_defs.specs.Distance.{network};
ghost use Rattle.placement.specs.Corridors.{Listed};
ghost use Rattle.placement.specs.Stages.{Called};

use crate::check::Request;
use crate::lists::Lists;

#[derive(Drop)]
pub struct Network<'a> {
    pub n: usize,
    pub reading: &'a [f64],
    pub weight: &'a [f64],
    pub a: &'a [u32],
    pub b: &'a [u32],
    pub km: &'a [f64],
    pub lists: &'a Lists,
    ghost called: { Called n reading.now weight.now },
    ghost net: { Net n (length a.now) a.now b.now km.now },
    ghost listed: { Listed (network n (length a.now) a.now b.now km.now) 0 lists.now.head lists.now.after_a lists.now.after_b },
}

impl<'a> Network<'a> {
    pub fn new(request: &Request<'a>, lists: &'a Lists) -> Network<'a>
        requires called { Called request.now.n request.now.reading request.now.weight }
        requires net { Net request.now.n (length request.now.a) request.now.a request.now.b request.now.km }
        requires listed { Listed (network request.now.n (length request.now.a) request.now.a request.now.b request.now.km) 0 lists.now.head lists.now.after_a lists.now.after_b }
        ensures buses { result.n ≡ request.now.n }
        ensures tables { (result.reading.now ≡ request.now.reading) × (result.weight.now ≡ request.now.weight) × (result.a.now ≡ request.now.a) × (result.b.now ≡ request.now.b) × (result.km.now ≡ request.now.km) }
    {
        let Request {
            n,
            reading,
            weight,
            a,
            b,
            km,
            ..
        } = *request;
        Network {
            n,
            reading,
            weight,
            a,
            b,
            km,
            lists,
        }
    }

    // The load of bus i. It is worked out where it is asked for, so that a case of few buses pays for those alone.
    pub fn load(&self, i: usize) -> f64
        requires { i < self.now.n }
        ensures { result ≡ at (loads_of self.now.n self.now.reading.now self.now.weight.now) i }
    {
        loads::load_by(self.reading[i], self.weight[i])
    }
}
