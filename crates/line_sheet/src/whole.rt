// Whole numbers below 2^174.
ghost use Rattle.line_sheet.specs.Limbs.{Limbs};

pub const LIMBS: usize = 6;

// Six limbs of 29 binary digits, the lowest first.
#[derive(Clone, Copy)]
pub struct Whole {
    pub limbs: [u64; LIMBS],
    ghost fit: { Limbs limbs },
}
