// A count of indices.
ghost use Rattle.std.specs.Prelude.{◌≡◌, ℕ, ◌^◌, ◌<◌, Bool};
ghost use Rattle.plan_defs.specs.Lists.{counting};

// How many indices below `count` pass a test that reads several slices; of one slice `filter` and `count` say it.
pub fn counting<F: Fn(usize) -> bool>(count: usize, test: F) -> u32
    requires few { count < 2 ^ 32 }
    requires callable { (i : ℕ) → i < count → F.pre test i }
    ensures { (p : ℕ → Bool) → ((i : ℕ) (r : Bool) → i < count → F.post test i r → r ≡ p i) → result ≡ counting p count }
{
    let mut passed = 0;
    for i in 0..count {
        passed += u32::from(test(i));
    }
    passed
}
