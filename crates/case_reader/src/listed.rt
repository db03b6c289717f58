// A case that was read, a line for each of its records.
ghost use Rattle.std.specs.Prelude.{◌≡◌, ◌<◌, ◌≤◌, length};
ghost use Rattle.casefile_defs.specs.Bounds.{most_levels};
ghost use Rattle.sheets.specs.Sheet.{row_figures};

use crate::figure::write_figure;
use casefile_defs::ROW_FIGURES;
use cases::Case;
use std::io;
use std::io::Write;
use streams::write_field;

pub fn print_case<W: Write>(to: &mut W, case: &Case) -> io::Result<()> {
    print_header(to, case)?;
    print_levels(to, case)?;
    print_buses(to, case)?;
    print_generators(to, case)?;
    print_corridors(to, case)?;
    print_lines(to, case)
}

fn print_header<W: Write>(to: &mut W, case: &Case) -> io::Result<()> {
    let h = case.header;
    write!(to, "HD")?;
    write_field(to, u64::from(h.mode.number()))?;
    write_field(to, u64::from(h.target))?;
    for count in [h.buses, h.corridors, h.generators, h.above, h.requested] {
        write_field(to, count as u64)?;
    }
    writeln!(to)
}

fn levels(case: &Case) -> usize
    ensures { result ≤ most_levels }
{
    case.header.above + case.header.requested
}

fn print_levels<W: Write>(to: &mut W, case: &Case) -> io::Result<()> {
    for voltage in &case.tables.ladder[..levels(case)] {
        write!(to, "LV")?;
        write_figure(to, *voltage)?;
        writeln!(to)?;
    }
    Ok(())
}

// A BU or a BV: both are printed with their weight. By index, as below: the record's fields lie in parallel tables, as case reading
// fills them, and ((((bus, slack), pmin), pmax), c1) of nested zips reads no better.
fn print_buses<W: Write>(to: &mut W, case: &Case) -> io::Result<()> {
    let t = &case.tables;
    for i in 0..case.header.buses {
        write!(to, "BU")?;
        write_field(to, u64::from(t.tier[i]))?;
        write_figure(to, t.reading[i])?;
        write_figure(to, t.weight[i])?;
        writeln!(to)?;
    }
    Ok(())
}

fn print_generators<W: Write>(to: &mut W, case: &Case) -> io::Result<()> {
    let t = &case.tables;
    for i in 0..case.header.generators {
        write!(to, "GE")?;
        write_field(to, u64::from(t.bus[i]))?;
        write_field(to, u64::from(t.slack[i]))?;
        for figure in [t.pmin[i], t.pmax[i], t.c1[i], t.c2[i]] {
            write_figure(to, figure)?;
        }
        writeln!(to)?;
    }
    Ok(())
}

// A CO or a CP: both are printed with their cap.
fn print_corridors<W: Write>(to: &mut W, case: &Case) -> io::Result<()> {
    let t = &case.tables;
    for i in 0..case.header.corridors {
        write!(to, "CO")?;
        for number in [t.a[i], t.b[i], t.circuits[i]] {
            write_field(to, u64::from(number))?;
        }
        write_figure(to, t.length_km[i])?;
        write_figure(to, t.share[i])?;
        write_field(to, u64::from(t.cap[i]))?;
        writeln!(to)?;
    }
    Ok(())
}

// The lines in the file's order, by corridor.
fn print_lines<W: Write>(to: &mut W, case: &Case) -> io::Result<()> {
    for k in 0..case.header.corridors {
        print_rows(to, case, k)?;
    }
    Ok(())
}

// A corridor's lines, a level each.
fn print_rows<W: Write>(to: &mut W, case: &Case, k: usize) -> io::Result<()>
    requires { k < case.now.header.corridors }
{
    let sheet = &case.tables.sheet[..];
    for level in 0..levels(case) {
        let row = sheets::row_place(case.header.corridors, k, level);
        print_line(to, &sheet[row..row + ROW_FIGURES])?;
    }
    Ok(())
}

// The place of a row's basis.
const BASIS: usize = ROW_FIGURES - 1;

// A row's figures, the basis as the file's number of it.
fn print_line<W: Write>(to: &mut W, row: &[f64]) -> io::Result<()>
    requires { length row.now ≡ row_figures }
{
    write!(to, "LN")?;
    for figure in &row[..BASIS] {
        write_figure(to, *figure)?;
    }
    write_field(to, u64::from(row[BASIS] != 0.0))?;
    writeln!(to)
}
