// Refusal 1: the lengths of the columns.
ghost use Rattle.std.specs.Prelude.{◌≡◌, ◌+◌, eqb};
ghost use Rattle.acceptance.specs.Check.{sized};

// The counts are as given, so that their sum may not fit.
pub fn levels_ok(levels: usize, above: usize, requested: usize) -> bool
    ensures { result ≡ eqb levels (above + requested) }
{
    above.checked_add(requested) == Some(levels)
}

// The columns of a table have these lengths: is each the number of its rows?
pub fn sized(columns: &[usize], rows: usize) -> bool
    ensures { result ≡ sized rows columns.now }
{
    columns.iter().all(|length| *length == rows)
}
