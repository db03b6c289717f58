// Two case files, read, joined and written as one.
ghost use Rattle.std.specs.Prelude.{◌≡◌, ◌≤◌, length};
ghost use Rattle.case_tables.specs.Tables.{tables_in};
ghost use Rattle.casefile_theorems.specs.Cases.{longest, fronts, blank};
ghost use Rattle.join_defs.specs.Joining.{join_cases};
ghost use Rattle.cases.specs.Cases.{IsCase};
ghost use Rattle.joins.specs.Files.{written, Kept, join_files};

use case_tables::Tables;
use casefile_writer::put_tables;
use cases::Case;
use join::join_cases;
use refusal::Refusal;

// The two cases joined, or the refusal of joining them.
fn join(first: &Case, second: &Case) -> Result<Case, Refusal>
    ensures { let o = join_cases first.now.header (fronts first.now.header (tables_in first.now.tables)) second.now.header (fronts second.now.header (tables_in second.now.tables)) blank in IsCase result o.reply o.places }
{
    let mut tables = Tables::zeros();
    let a = first.fronts();
    let b = second.fronts();
    let header = join_cases(
        first.header,
        a.ladder,
        a.tier,
        a.reading,
        a.weight,
        a.bus,
        a.slack,
        a.pmin,
        a.pmax,
        a.c1,
        a.c2,
        a.a,
        a.b,
        a.circuits,
        a.length_km,
        a.share,
        a.cap,
        a.sheet,
        second.header,
        b.ladder,
        b.tier,
        b.reading,
        b.weight,
        b.bus,
        b.slack,
        b.pmin,
        b.pmax,
        b.c1,
        b.c2,
        b.a,
        b.b,
        b.circuits,
        b.length_km,
        b.share,
        b.cap,
        b.sheet,
        &mut tables.ladder,
        &mut tables.tier,
        &mut tables.reading,
        &mut tables.weight,
        &mut tables.bus,
        &mut tables.slack,
        &mut tables.pmin,
        &mut tables.pmax,
        &mut tables.c1,
        &mut tables.c2,
        &mut tables.a,
        &mut tables.b,
        &mut tables.circuits,
        &mut tables.length_km,
        &mut tables.share,
        &mut tables.cap,
        &mut tables.sheet,
    )?;
    Ok(Case { header, tables })
}

// The file of the two files' cases joined, at the start of out, and how long it is; or the first refusal, which touches nothing: of reading the first, of
// reading the second, of joining.
#[tactic(auto, unfolding(crate::specs::Files::Kept))]
pub fn join_files(first: &[u8], second: &[u8], out: &mut [u8]) -> Result<usize, Refusal>
    requires { longest ≤ length out.old }
    ensures said { written result out.new ≡ join_files first.now second.now }
    ensures kept { Kept out.old out.new result }
{
    let first = Case::read(first)?;
    let second = Case::read(second)?;
    let joined = join(&first, &second)?;
    Ok(put_tables(out, joined.header, &joined.tables))
}
