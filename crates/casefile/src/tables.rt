// Filling the lent tables, kind by kind, and the line sheet.
ghost use Rattle.std.specs.Prelude.{◌≡◌, ◌+◌, ◌*◌, ◌^◌, ◌≤◌, ◌<◌, length};
ghost use Rattle.loops.specs.Bounds.{most_corridors};
ghost use Rattle.loops.specs.Loops.{tab};
ghost use Rattle.loops.specs.Parts.{put};
ghost use Rattle.sheets.specs.Sheet.{row_figures};
ghost use Rattle.casefile_defs.specs.Layout.{size_of, spot};
ghost use Rattle.casefile_defs.specs.Tables.{sheet_in, basis_of, line_figure, numbers, numbers_of, figures, weights, cap_field};
ghost use Rattle.casefile.specs.Records.{Room};
ghost use Rattle.casefile.specs.Filled.{Lines, IsFilled};

use crate::bytes::{eight, word};
use crate::columns::Table;
use crate::record;
use crate::record::size;
use casefile_defs::{Kind, ROW_FIGURES};
use loops::fill;
use std::num::f64_from_bits_with_nan;

// A line's first fields are figures; the last, its basis, is not.
const BASIS: usize = 4;

// A basis as a figure.
fn basis_of(n: u64) -> f64
    ensures { result ≡ basis_of n }
{
    if n == 0 { 0.0 } else { 1.0 }
}

// Figure j of the line record at a place.
fn line_figure(file: &[u8], at: usize, j: usize) -> f64
    requires { at + size_of Kind.Line ≤ length file.now }
    ensures { result ≡ line_figure file.now at j }
{
    if j < BASIS {
        return f64_from_bits_with_nan(eight(file, at + (record::LINE_R + record::FIGURE * j)));
    }
    basis_of(word(file, at + record::LINE_BASIS, record::U8))
}

// Where a line's record starts: they are all of one length.
fn line_at(at: usize, row: usize) -> usize
    requires { at + row * size_of Kind.Line < 2 ^ 64 }
    ensures { result ≡ at + row * size_of Kind.Line }
{
    at + row * size(Kind::Line)
}

// Puts a line record's figures as a row of the sheet.
fn put_line(file: &[u8], at: usize, sheet: &mut [f64], to: usize)
    requires line { at + size_of Kind.Line ≤ length file.now }
    requires row { to + row_figures ≤ length sheet.old }
    ensures { sheet.new ≡ put sheet.old to (tab row_figures (line_figure file.now at)) }
{
    fill(
        &mut sheet[to..to + ROW_FIGURES],
        |j| line_figure(file, at, j),
    );
}

// Fills the rows of a level, where those of the levels before it are filled.
fn fill_level(
    file: &[u8],
    at: usize,
    corridors: usize,
    levels: usize,
    level: usize,
    sheet: &mut [f64],
)
    requires lines { Lines file.now at corridors levels (length sheet.old) }
    requires level { level < levels }
    requires before { IsFilled file.now at corridors levels (level * corridors) sheet.old }
    ensures { IsFilled file.now at corridors levels ((level + 1) * corridors) sheet.new }
{
    for k in 0..corridors {
        put_line(
            file,
            line_at(at, k * levels + level),
            sheet,
            sheets::row_place(corridors, k, level),
        );
    }
}

// Each of the four asks that its count is small: a number of one call, for which a table is made within.

// Fills the ladder. Answers where its records end, as the next three do.
pub fn read_levels(file: &[u8], at: usize, count: usize, ladder: &mut [f64]) -> usize
    requires room { Room Kind.Level file.now at count }
    requires few { count ≤ most_corridors }
    ensures ladder { ladder.new ≡ figures Kind.Level 0 file.now at count (length ladder.old) }
    ensures end { result ≡ spot Kind.Level file.now at count }
{
    let levels = Table::new(file, Kind::Level, at, count);
    levels.fill_figures(record::LEVEL_KV, ladder);
    levels.end()
}

// Fills the buses' tables.
pub fn read_buses(
    file: &[u8],
    at: usize,
    count: usize,
    tier: &mut [u32],
    reading: &mut [f64],
    weight: &mut [f64],
) -> usize
    requires room { Room Kind.Bus file.now at count }
    requires few { count ≤ most_corridors }
    ensures tier { tier.new ≡ numbers Kind.Bus 0 file.now at count (length tier.old) }
    ensures reading { reading.new ≡ figures Kind.Bus 1 file.now at count (length reading.old) }
    ensures weight { weight.new ≡ weights file.now at count (length weight.old) }
    ensures end { result ≡ spot Kind.Bus file.now at count }
{
    let buses = Table::new(file, Kind::Bus, at, count);
    buses.fill_numbers(record::BUS_TIER, record::U8, tier);
    buses.fill_figures(record::BUS_READING, reading);
    buses.fill_weights(weight);
    buses.end()
}

// Fills the generators' tables.
pub fn read_generators(
    file: &[u8],
    at: usize,
    count: usize,
    generator_bus: &mut [u32],
    slack: &mut [u32],
    pmin: &mut [f64],
    pmax: &mut [f64],
    c1: &mut [f64],
    c2: &mut [f64],
) -> usize
    requires room { Room Kind.Generator file.now at count }
    requires few { count ≤ most_corridors }
    ensures generator_bus { generator_bus.new ≡ numbers Kind.Generator 0 file.now at count (length generator_bus.old) }
    ensures slack { slack.new ≡ numbers Kind.Generator 1 file.now at count (length slack.old) }
    ensures pmin { pmin.new ≡ figures Kind.Generator 2 file.now at count (length pmin.old) }
    ensures pmax { pmax.new ≡ figures Kind.Generator 3 file.now at count (length pmax.old) }
    ensures c1 { c1.new ≡ figures Kind.Generator 4 file.now at count (length c1.old) }
    ensures c2 { c2.new ≡ figures Kind.Generator 5 file.now at count (length c2.old) }
    ensures end { result ≡ spot Kind.Generator file.now at count }
{
    let generators = Table::new(file, Kind::Generator, at, count);
    generators.fill_numbers(record::GENERATOR_BUS, record::U16, generator_bus);
    generators.fill_numbers(record::GENERATOR_SLACK, record::U8, slack);
    generators.fill_figures(record::GENERATOR_PMIN, pmin);
    generators.fill_figures(record::GENERATOR_PMAX, pmax);
    generators.fill_figures(record::GENERATOR_C1, c1);
    generators.fill_figures(record::GENERATOR_C2, c2);
    generators.end()
}

// Fills the corridors' tables; a CO has no cap, and its place is 0.
pub fn read_corridors(
    file: &[u8],
    at: usize,
    count: usize,
    a: &mut [u32],
    b: &mut [u32],
    circuits: &mut [u32],
    length_km: &mut [f64],
    share: &mut [f64],
    cap: &mut [u32],
) -> usize
    requires room { Room Kind.Corridor file.now at count }
    requires few { count ≤ most_corridors }
    ensures a { a.new ≡ numbers Kind.Corridor 0 file.now at count (length a.old) }
    ensures b { b.new ≡ numbers Kind.Corridor 1 file.now at count (length b.old) }
    ensures circuits { circuits.new ≡ numbers Kind.Corridor 2 file.now at count (length circuits.old) }
    ensures length_km { length_km.new ≡ figures Kind.Corridor 3 file.now at count (length length_km.old) }
    ensures share { share.new ≡ figures Kind.Corridor 4 file.now at count (length share.old) }
    ensures cap { cap.new ≡ numbers_of Kind.Corridor Kind.CappedCorridor cap_field file.now at count (length cap.old) }
    ensures end { result ≡ spot Kind.Corridor file.now at count }
{
    let corridors = Table::new(file, Kind::Corridor, at, count);
    corridors.fill_numbers(record::CORRIDOR_A, record::U16, a);
    corridors.fill_numbers(record::CORRIDOR_B, record::U16, b);
    corridors.fill_numbers(record::CORRIDOR_CIRCUITS, record::U8, circuits);
    corridors.fill_figures(record::CORRIDOR_LENGTH, length_km);
    corridors.fill_figures(record::CORRIDOR_SHARE, share);
    corridors.fill_caps(cap);
    corridors.end()
}

// Fills the sheet, which has its rows by level where the file has them by corridor; zeros past them.
pub fn read_lines(file: &[u8], at: usize, corridors: usize, levels: usize, sheet: &mut [f64])
    requires { Lines file.now at corridors levels (length sheet.old) }
    ensures { sheet.new ≡ tab (length sheet.old) (sheet_in file.now at corridors levels) }
{
    sheet.fill(0.0);
    for level in 0..levels {
        fill_level(file, at, corridors, levels, level, sheet);
    }
}
