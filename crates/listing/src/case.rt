// The listing of a case file.
ghost use Rattle.std.specs.Prelude.{◌≡◌, ◌+◌, ◌≤◌, [], ◌++◌, length};
ghost use Rattle.casefile_defs.specs.Bounds.{most_buses, most_levels};
ghost use Rattle.listing_defs.specs.Lines.{most_text};
ghost use Rattle.listing.specs.Listing.{file_text, planned_lines};

use crate::text::Text;
use plan_defs::CorridorPlan;
use planned_files::{PlannedFile, plan_file};

impl Text {
    // PL, AD, GR, BU, GE, CO, MX
    fn put_planned(&mut self, file: &PlannedFile, p: CorridorPlan)
        requires room { length self.old + length (planned_lines file.now p) ≤ most_text }
        requires added { p.added ≤ most_levels }
        requires grounds { p.grounds ≤ most_buses }
        ensures { self.new ≡ self.old ++ planned_lines file.now p }
    {
        let h = file.header;
        self.put_plan(h.mode, p);
        self.put_levels(&file.results.added[..p.added as usize]);
        self.put_grounds(&file.results.ground[..p.grounds as usize]);
        self.put_buses(
            &file.results.tier[..h.buses],
            &file.results.angle[..h.buses],
        );
        self.put_generators(&file.results.mw[..h.generators]);
        self.put_corridors(
            &file.results.circuits[..h.corridors],
            &file.results.flow[..h.corridors],
            &file.results.rate[..h.corridors],
        );
        self.put_most(p.loading, p.spread)
    }

    // The listing of a case file, or its refusal.
    pub fn put_file(&mut self, file: &[u8])
        requires { self.old ≡ [] }
        ensures { self.new ≡ file_text file.now }
    {
        let planned = plan_file(file);
        match planned.planned {
            Err(f) => self.put_refusal(f),
            Ok(p) => self.put_planned(&planned, p),
        }
    }
}
