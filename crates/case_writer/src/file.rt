// The file of a small network.
ghost use Rattle.std.specs.Prelude.{◌≤◌, length};
ghost use Rattle.casefile_theorems.specs.Cases.{longest};
ghost use Rattle.case_writer.specs.Files.{Wrote};

use case_tables::Tables;
use casefile_writer::put_tables;
use refusal::Refusal;

// Puts the file of the small network of a place at the start of out, and answers how long it is.
pub fn put_small_network(out: &mut [u8], place: usize) -> Result<usize, Refusal>
    requires { longest ≤ length out.old }
    ensures { Wrote place out.old out.new result }
{
    // No `cases::Case`: the file is put from the header and the tables, so it would be made to be taken apart at once.
    let mut tables = Tables::zeros();
    let header = small::small_network(
        place,
        &mut tables.ladder,
        &mut tables.tier,
        &mut tables.reading,
        &mut tables.weight,
        &mut tables.bus,
        &mut tables.slack,
        &mut tables.pmin,
        &mut tables.pmax,
        &mut tables.c1,
        &mut tables.c2,
        &mut tables.a,
        &mut tables.b,
        &mut tables.circuits,
        &mut tables.length_km,
        &mut tables.share,
        &mut tables.cap,
        &mut tables.sheet,
    )?;
    Ok(put_tables(out, header, &tables))
}
