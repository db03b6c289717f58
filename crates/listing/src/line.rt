// The lines of the listing.
ghost use Rattle.std.specs.Prelude.{◌≡◌, ◌+◌, ◌≤◌, ◌++◌, length};
ghost use Rattle.listing_defs.specs.Lines.{refusal_line, plan_line, added_lines, ground_lines, bus_lines, generator_lines, corridor_lines, most_line, most_text};

use crate::text::Text;
use listing_defs::Field;
use mode::PlanMode;
use plan_defs::CorridorPlan;
use refusal::Refusal;

impl Text {
    // RF number index, put as every line is: by its fields, from which the definition makes it.
    #[tactic(auto, unfolding(listing_defs::specs::Lines::refusal_line))]
    pub fn put_refusal(&mut self, f: Refusal)
        requires { length self.old + length (refusal_line f) ≤ most_text }
        ensures { self.new ≡ self.old ++ refusal_line f }
    {
        self.put_line(
            b"RF",
            &[
                Field::Number(f.number() as u64),
                Field::Number(f.index() as u64),
            ],
        )
    }

    // PL mode rounds converged capacity stiffening filler promoted upsized overloaded capped
    #[tactic(auto, unfolding(listing_defs::specs::Lines::plan_line))]
    pub fn put_plan(&mut self, mode: PlanMode, p: CorridorPlan)
        requires { length self.old + length (plan_line mode p) ≤ most_text }
        ensures { self.new ≡ self.old ++ plan_line mode p }
    {
        self.put_line(
            b"PL",
            &[
                Field::Number(mode.number() as u64),
                Field::Number(p.rounds as u64),
                Field::Number(p.converged as u64),
                Field::Number(p.capacity as u64),
                Field::Number(p.stiffening as u64),
                Field::Number(p.filler as u64),
                Field::Number(p.promoted as u64),
                Field::Number(p.upsized as u64),
                Field::Number(p.overloaded as u64),
                Field::Number(p.capped as u64),
            ],
        )
    }

    // AD kV, for each level added.
    #[tactic(auto, using(crate::proofs::Texts::one_more), unfolding(listing_defs::specs::Lines::added_line))]
    pub fn put_levels(&mut self, added: &[f64])
        requires { length self.old + length (added_lines added.now) ≤ most_text }
        ensures { self.new ≡ self.old ++ added_lines added.now }
    {
        for kv in added {
            self.put_line(b"AD", &[Field::Figure(*kv)]);
        }
    }

    // GR bus, for each ground.
    #[tactic(auto, using(crate::proofs::Texts::one_more), unfolding(listing_defs::specs::Lines::ground_line))]
    pub fn put_grounds(&mut self, ground: &[u32])
        requires { length self.old + length (ground_lines ground.now) ≤ most_text }
        ensures { self.new ≡ self.old ++ ground_lines ground.now }
    {
        for bus in ground {
            self.put_line(b"GR", &[Field::Number(*bus as u64)]);
        }
    }

    // BU index tier angle, for each bus.
    #[tactic(auto, using(crate::proofs::Texts::one_more), unfolding(listing_defs::specs::Lines::bus_line))]
    pub fn put_buses(&mut self, tier: &[u32], angle: &[f64])
        requires room { length self.old + length (bus_lines tier.now angle.now) ≤ most_text }
        requires tier_len { length tier.now ≡ length angle.now }
        ensures { self.new ≡ self.old ++ bus_lines tier.now angle.now }
    {
        for (i, (tier, angle)) in tier.iter().zip(angle).enumerate() {
            self.put_line(
                b"BU",
                &[
                    Field::Number(i as u64),
                    Field::Number(*tier as u64),
                    Field::Figure(*angle),
                ],
            );
        }
    }

    // GE index MW, for each generator.
    #[tactic(auto, using(crate::proofs::Texts::one_more), unfolding(listing_defs::specs::Lines::generator_line))]
    pub fn put_generators(&mut self, mw: &[f64])
        requires { length self.old + length (generator_lines mw.now) ≤ most_text }
        ensures { self.new ≡ self.old ++ generator_lines mw.now }
    {
        for (i, mw) in mw.iter().enumerate() {
            self.put_line(b"GE", &[Field::Number(i as u64), Field::Figure(*mw)]);
        }
    }

    // CO index circuits flow rate, for each corridor.
    #[tactic(auto, using(crate::proofs::Texts::one_more), unfolding(listing_defs::specs::Lines::corridor_line))]
    pub fn put_corridors(&mut self, circuits: &[u32], flow: &[f64], rate: &[f64])
        requires room { length self.old + length (corridor_lines circuits.now flow.now rate.now) ≤ most_text }
        requires flow_len { length flow.now ≡ length circuits.now }
        requires rate_len { length rate.now ≡ length circuits.now }
        ensures { self.new ≡ self.old ++ corridor_lines circuits.now flow.now rate.now }
    {
        let corridors = circuits.iter().zip(flow).zip(rate);
        for (i, ((circuits, flow), rate)) in corridors.enumerate() {
            self.put_line(
                b"CO",
                &[
                    Field::Number(i as u64),
                    Field::Number(*circuits as u64),
                    Field::Figure(*flow),
                    Field::Figure(*rate),
                ],
            );
        }
    }

    // MX loading spread
    #[tactic(auto, unfolding(listing_defs::specs::Lines::most_line))]
    pub fn put_most(&mut self, loading: f64, spread: f64)
        requires { length self.old + length (most_line loading spread) ≤ most_text }
        ensures { self.new ≡ self.old ++ most_line loading spread }
    {
        self.put_line(b"MX", &[Field::Figure(loading), Field::Figure(spread)])
    }
}
