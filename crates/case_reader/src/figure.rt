// How a figure is printed.
use std::io;
use std::io::Write;

// The one pattern under which a NaN is printed.
const NAN: u64 = 0x7ff8_0000_0000_0000;

// A space and sixteen digits.
const FIELD: usize = 17;

// Writes a space and a figure's bits as they were read, in hexadecimal digits: at once, since standard output has no buffer.
pub fn write_figure<W: Write>(to: &mut W, figure: f64) -> io::Result<()> {
    let bits = if figure.is_nan() {
        NAN
    } else {
        figure.to_bits()
    };
    let mut field = [b' '; FIELD];
    hex::encode_to_slice(bits.to_be_bytes(), &mut field[1..]).unwrap();
    field.make_ascii_uppercase();
    to.write_all(&field)
}
