// The blocks of a row in which a key stands, noted once: the others need not be looked at again.
ghost use Rattle.std.specs.Prelude.{◌≡◌, ℕ, ◌+◌, ◌*◌, ◌/◌, ◌≤◌, ◌<◌, length};
ghost use Rattle.placing.specs.Blocks.{Noting};

// Notes at the key of each place the block of `size` places that it stands in, from bit `low` on.
pub fn note<F: Fn(usize) -> usize>(
    notes: &mut [u8],
    count: usize,
    size: usize,
    low: usize,
    key_at: F,
)
    ghost key: { ℕ → ℕ }
    requires count_bound { count ≤ 4 * size }
    requires low_bound { low ≤ 4 }
    requires callable { (i : ℕ) → i < count → F.pre key_at i }
    requires tells { (i : ℕ) (r : ℕ) → i < count → F.post key_at i r → r ≡ key i }
    requires keys { (i : ℕ) → i < count → key i < length notes.old }
    ensures { Noting key size low count notes.old notes.new }
{
    for i in 0..count {
        let key = key_at(i);
        notes[key] = notes[key] | 1 << (low + i / size);
    }
}
