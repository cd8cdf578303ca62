// The cycle that the walk met, written from its lowest call on.
ghost use Rattle.std.specs.Prelude.{◌≡◌, ◌==◌, ℕ, ◌≤◌, ◌<◌, length, get_or};
ghost use Rattle.std.specs.Prelude.{MatchOption, Contains, EachIndex, slice_index};
ghost use Rattle.std.specs.List.{position};
ghost use Rattle.search.specs.Front.{fronted};
ghost use Rattle.orders.specs.Turn.{turn, lowest_place};

// The first place that holds the byte.
pub fn place_of(bytes: &[u8], byte: u8) -> Option<usize>
    ensures { result ≡ position (λ b. b == byte) bytes.now }
{
    bytes.iter().position(|b| *b == byte)
}

// The lowest of the bytes.
fn lowest_of(bytes: &[u8]) -> Option<u8>
    ensures { MatchOption result (length bytes.now ≡ 0)
        (λ low. Contains bytes.now low × EachIndex bytes.now (λ i. low ≤ slice_index bytes.now i)) }
{
    bytes.iter().copied().min()
}

// Writes the cycle at the front of `out`, from its lowest call on.
pub fn write_turned(cycle: &[u8], out: &mut [u8])
    requires cycle_any { 0 < length cycle.now }
    requires cycle_in_bounds { length cycle.now ≤ length out.old }
    ensures { (n : ℕ) → ((i : ℕ) → i < length cycle.now → get_or cycle.now i 0 < n)
        → out.new ≡ fronted (turn (lowest_place n cycle.now) cycle.now) out.old }
{
    let low = lowest_of(cycle).unwrap();
    let first = place_of(cycle, low).unwrap();
    let (front, back) = cycle.split_at(first);
    // Stays: `copy_from_slice` calls memmove, and the archives need no more than memcpy and memset.
    for (place, call) in back.iter().chain(front).enumerate() {
        out[place] = *call;
    }
}
