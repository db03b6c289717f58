// A case file, read and planned; and the preview of its plan for a target.
ghost use Rattle.std.specs.Prelude.{◌≡◌, replicate};
ghost use Rattle.plan_defs.specs.Preview.{preview};
ghost use Rattle.previews.specs.Files.{kept_in, draft_of, kept_file, filled};

use crate::draft::Draft;
use casefile_defs::MOST_CORRIDORS;
use planned_files::plan_file;
use planning::preview_filling;
use refusal::Refusal;

// A case file: what its plan keeps, or its refusal by reading or by planning.
pub fn draft_file(file: &[u8]) -> Result<Draft, Refusal>
    ensures { draft_of result ≡ kept_file file.now }
{
    let plan = plan_file(file);
    plan.planned?;
    let (before, order, cap) = (plan.results.before, plan.results.order, plan.results.cap);
    Ok(Draft {
        mode: plan.header.mode,
        corridors: plan.header.corridors,
        before,
        order,
        cap,
    })
}

impl Draft {
    // The circuits that filling to a target would give, in the first places.
    pub fn preview(&self, target: u32) -> Result<[u32; MOST_CORRIDORS], Refusal>
        ensures { filled self.now.corridors result ≡ preview (kept_in self.now) target (replicate self.now.corridors 0) }
    {
        let m = self.corridors;
        let mut circuits = [0; MOST_CORRIDORS];
        preview_filling(
            self.mode,
            target,
            m,
            &self.before[..m],
            &self.order[..m],
            &self.cap[..m],
            &mut circuits[..m],
        )?;
        Ok(circuits)
    }
}
