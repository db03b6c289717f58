// A case: its header, and its tables, at the start of which the records are, as many as the header says.
ghost use Rattle.casefile_defs.specs.Reading.{Small};

use case_tables::Tables;
use casefile_defs::Header;

#[derive(Drop)]
pub struct Case {
    pub header: Header,
    pub tables: Tables,
    pub ghost small: { Small header },
}
