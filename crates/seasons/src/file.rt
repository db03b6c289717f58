// A case file, read, planned and taken.
ghost use Rattle.std.specs.Prelude.{◌≡◌};
ghost use Rattle.season_defs.specs.Feeding.{outcome};
ghost use Rattle.seasons.specs.Files.{fed_file};

use planned_files::plan_file;
use refusal::Refusal;
use season::add_plan;
use season_defs::Season;

// A case file: its plan is taken, or it is refused by reading, by planning or by the season, which is then as it was.
pub fn feed_file(season: &mut Season, file: &[u8]) -> Result<(), Refusal>
    ensures { outcome result season.new ≡ fed_file season.old file.now }
{
    let plan = plan_file(file);
    let m = plan.header.corridors;
    add_plan(season, plan.planned?, m, &plan.results.circuits[..m])
}
