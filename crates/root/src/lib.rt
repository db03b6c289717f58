// IEEE 754's square root at binary64, worked out from the bits: whole numbers decide every digit.
//
// 1. A zero and the infinity are their own roots. A NaN and what lies below zero have none.
// 2. Any other value is s * 2^(e - 2148), with a whole number s of at most 53 binary digits.
// 3. Double s and lower e until s has 53 digits, and once more where e is odd.
// 4. Find the 53 digits of the root, by an approximation in f64 that is checked in whole numbers or,
//    where the check fails, one at a time, and round by what is left over.
// 5. Put the halved exponent before them. A carry out of the digits raises it by one.
#![tactic(auto)]

ghost use Rattle.std.specs.Prelude.{IfSome, ◌≡◌, ◌+◌, ◌*◌, ◌^◌, ◌<◌, ◌≤◌};
ghost use Rattle.std.specs.Float.{binary64};
ghost use Rattle.std.specs.Float.Ieee.{to_bits};
ghost use Rattle.root.specs.Root.{closest_root, root, round_root, root_bits};

// The binary digits of a number.
const DIGITS: u64 = 53;

// Those after the leading one.
const FRACTION: u64 = 52;

// 2^52: the leading digit, which a bit pattern leaves out, and the weight of the exponent's field.
const HIDDEN_BIT: u64 = 0x10_0000_0000_0000;

// The exponent e of step 2, of a subnormal.
const SUBNORMAL: u64 = 1074;

// The same of any other number, less the exponent's field.
const NORMAL: u64 = 1073;

const MINUS_ZERO: u64 = 0x8000_0000_0000_0000;

const INFINITY: u64 = 0x7FF0_0000_0000_0000;

const NAN: u64 = 0x7FF8_0000_0000_0000;

// About √x of x = s / 2^52, from 1 up to 4: for its upper part u a polynomial within 1/15000 of √u,
// then Newton's method twice. The contract claims nothing of it, since `closest_root` checks it.
fn approximate_root(s: u64) -> f64 {
    // with 2^-20 and 2^-52
    let u = ((s / 0x1_0000_0000) as u32) as f64 * 9.5367431640625e-7;
    let x = u + ((s % 0x1_0000_0000) as u32) as f64 * 2.220446049250313e-16;
    let u2 = u * u;
    let y0 = 0.34354
        + 0.870612 * u
        + u2 * (0.0772602 * u - 0.2800156 + u2 * (0.00079574 * u - 0.0121293));
    let y1 = 0.5 * y0 + 0.5 * x / y0;
    0.5 * y1 + 0.5 * x / y1
}

// What s * 2^52 leaves over the square of q; none where it is below the square, or far above it.
// With q = h * 2^27 + l the square is (4 * h^2 + h * l / 2^24) * 2^52, and `low` besides.
#[tactic(auto, using(crate::proofs::Digits::left_is))]
fn left_over(s: u64, q: u64) -> Option<u64>
    requires { q < 2 ^ 53 }
    ensures { IfSome result (λ rem. q * q + rem ≡ s * 2 ^ 52) }
{
    let h = q / 0x800_0000;
    let l = q % 0x800_0000;
    let high = h * h * 4 + h * l / 0x100_0000;
    let low = h * l % 0x100_0000 * 0x1000_0000 + l * l;
    let left = s.checked_sub(high)?;
    if left > 255 {
        return None;
    }
    (left * HIDDEN_BIT).checked_sub(low)
}

// The root of s * 2^52 to the nearest whole number. Two binary digits of s * 2^52 give one of the
// root, q. `rem` is what the digits so far leave over the square of q, and `rest` holds those to
// come, the next two from 2^52 up. There is no tie, since q + 1/2 has no whole square.
#[tactic(auto, using(crate::proofs::Digits::small, crate::proofs::Digits::small_end))]
fn root_by_digits(s: u64) -> u64
    requires { s < 2 ^ 54 }
    ensures { result ≡ closest_root (s * 2 ^ 52) }
{
    let mut q = 0;
    let mut rem = 0;
    let mut rest = s;
    for _ in 0..DIGITS {
        rem = rem * 4 + rest / HIDDEN_BIT;
        rest = rest % HIDDEN_BIT * 4;
        q *= 2;
        if rem > q * 2 {
            rem -= q * 2 + 1;
            q += 1;
        }
    }
    if rem > q { q + 1 } else { q }
}

// The root of s * 2^52 to the nearest whole number: q, q + 1 or q + 2, where q has the digits of the
// approximate root, less one; digit by digit where it is none of them.
fn closest_root(s: u64) -> u64
    requires { s < 2 ^ 54 }
    ensures { result ≡ closest_root (s * 2 ^ 52) }
{
    let y = approximate_root(s);
    if y >= 0.0 {
        let q = y.to_bits() % HIDDEN_BIT + (HIDDEN_BIT - 1);
        match left_over(s, q) {
            Some(rem) if rem <= q => return q,
            Some(rem) if rem <= q * 3 + 2 => return q + 1,
            Some(rem) if rem <= q * 5 + 6 => return q + 2,
            _ => {}
        }
    }
    root_by_digits(s)
}

// The bit pattern of the root of s * 2^(e - 2148), for an s above 0.
fn root_of_number(s: u64, e: u64) -> u64
    requires { (0 < s) × (s < 2 ^ 53) × (1074 ≤ e) × (e < 3121) }
    ensures { result ≡ to_bits binary64 (round_root (s * 2 ^ e)) }
{
    // Step 3, all doublings at once.
    let doublings = s.leading_zeros() as u64 - (64 - DIGITS);
    let mut t = s << doublings;
    let k = e - doublings;
    if k % 2 == 1 {
        t *= 2;
    }
    (k - FRACTION) / 2 * HIDDEN_BIT + closest_root(t)
}

// The bit pattern of the square root of the f64 with the bit pattern `bits`: the f64 nearest to the
// exact root, a tie going to the even one. -0 gives -0; a NaN, and what lies below zero, give
// 7FF8000000000000.
#[tactic(auto, using(crate::proofs::Patterns::at_zero, crate::proofs::Patterns::at_minus_zero, crate::proofs::Patterns::at_inf, crate::proofs::Patterns::at_none, crate::proofs::Patterns::at_subnormal, crate::proofs::Patterns::at_normal))]
pub fn square_root(bits: u64) -> u64
    ensures { result ≡ root_bits bits }
{
    if bits == 0 || bits == MINUS_ZERO || bits == INFINITY {
        bits
    } else if bits > INFINITY {
        NAN
    } else if bits < HIDDEN_BIT {
        root_of_number(bits, SUBNORMAL)
    } else {
        root_of_number(bits % HIDDEN_BIT + HIDDEN_BIT, bits / HIDDEN_BIT + NORMAL)
    }
}

// The square root of a figure. Not std's `f64::sqrt`: the project proves its own roots against IEEE 754, from whole numbers.
pub fn sqrt(x: f64) -> f64
    ensures { result ≡ root x }
{
    if 0.0 <= x {
        f64::from_bits(square_root(x.to_bits()))
    } else {
        f64::NAN
    }
}
