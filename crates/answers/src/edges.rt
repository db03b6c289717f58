// The edges of a network, a table for each part.
use request_fields::{Fields, NoRequest, Table};

#[derive(Default, Drop)]
pub struct Edges {
    pub a: Table<u32>,
    pub b: Table<u32>,
    pub figure: Table<f64>,
}

impl Edges {
    // The next m edges: two ends and a figure.
    pub fn read(fields: &mut Fields, m: usize) -> Result<Edges, NoRequest> {
        let mut edges = Edges::default();
        for _ in 0..m {
            fields.read_to(&mut edges.a)?;
            fields.read_to(&mut edges.b)?;
            fields.read_to(&mut edges.figure)?;
        }
        Ok(edges)
    }
}
