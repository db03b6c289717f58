// Whole numbers from the file's bytes.
ghost use Rattle.std.specs.Prelude.{◌≡◌, ◌+◌, ◌^◌, ◌<◌, ◌≤◌, length};
ghost use Rattle.casefile_defs.specs.Layout.{word};

// The number of `width` bytes at a place, the least significant first.
pub fn word(file: &[u8], at: usize, width: usize) -> u64
    requires { (width ≤ 8) × (at + width ≤ length file.now) }
    ensures value { result ≡ word width at file.now }
    ensures small { result < 256 ^ width }
{
    let mut bytes = [0; 8];
    bytes[..width].copy_from_slice(&file[at..at + width]);
    u64::from_le_bytes(bytes)
}

// The number of eight bytes at a place, which the compiler loads at once.
#[tactic(auto, using(crate::proofs::Words::eight_bytes))]
pub fn eight(file: &[u8], at: usize) -> u64
    requires { at + 8 ≤ length file.now }
    ensures { result ≡ word 8 at file.now }
{
    u64::from_le_bytes(file[at..at + 8].try_into().unwrap())
}
