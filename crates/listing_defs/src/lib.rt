// What a line of the listing is made of. There is no code here: a type, the definition of the text and worked examples.
#![tactic(auto)]

// A field of a line: one of two kinds, each with digits of its own, and never none.
#[derive(Clone, Copy)]
pub enum Field {
    Number(u64),
    Figure(f64),
}
