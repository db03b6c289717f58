// The upper half of a product.
ghost use Rattle.std.specs.Prelude.{◌≡◌, ◌*◌, ◌/◌, ◌^◌};

// x * y / 2^64
pub fn high(x: u64, y: u64) -> u64
    ensures { result ≡ x * y / 2 ^ 64 }
{
    ((x as u128 * y as u128) >> 64) as u64
}
