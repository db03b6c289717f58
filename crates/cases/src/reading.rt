// Reading a case file into a case.
ghost use Rattle.casefile_defs.specs.Tables.{read_case};
ghost use Rattle.casefile_theorems.specs.Cases.{blank};
ghost use Rattle.cases.specs.Cases.{IsCase, IsReading};

use crate::Case;
use case_tables::Tables;
use refusal::Refusal;

// A file's case or its refusal, and how many words and bytes were looked at after the records.
#[derive(Drop)]
pub struct Reading {
    pub case: Result<Case, Refusal>,
    pub looks: usize,
}

impl Reading {
    // Reads a file into tables that are zero.
    pub fn of(file: &[u8]) -> Reading
        ensures { IsReading result (read_case file.now blank) }
    {
        let mut tables = Tables::zeros();
        let read = casefile::read_case(
            file,
            &mut tables.ladder,
            &mut tables.tier,
            &mut tables.reading,
            &mut tables.weight,
            &mut tables.bus,
            &mut tables.slack,
            &mut tables.pmin,
            &mut tables.pmax,
            &mut tables.c1,
            &mut tables.c2,
            &mut tables.a,
            &mut tables.b,
            &mut tables.circuits,
            &mut tables.length_km,
            &mut tables.share,
            &mut tables.cap,
            &mut tables.sheet,
        );
        // No `map`: its closure would carry a `requires` that the header is small.
        let case = match read.reading {
            Ok(header) => Ok(Case { header, tables }),
            Err(f) => Err(f),
        };
        Reading {
            case,
            looks: read.looks,
        }
    }
}

impl Case {
    // The case of a file, or the refusal of reading it.
    pub fn read(file: &[u8]) -> Result<Case, Refusal>
        ensures { let o = read_case file.now blank in IsCase result o.reply o.places }
    {
        Reading::of(file).case
    }
}
