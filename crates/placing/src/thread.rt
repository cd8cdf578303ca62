// The order written from its end, along the thread of the placed calls.
ghost use Rattle.std.specs.Prelude.{◌≡◌, ℕ, ◌≤◌, ◌<◌, T, length};
ghost use Rattle.search.specs.Front.{fronted};
ghost use Rattle.orders.specs.Walk.{among};
ghost use Rattle.placing.specs.Thread.{chain};

use crate::Placed;

// Writes the placed calls at the front of `out`, from the last back: each names the one before it.
pub fn write_back(bytes: &[u8; 224], placed: Placed, out: &mut [u8])
    requires count_in_bounds { placed.count ≤ length out.old }
    requires by_index { (c : ℕ) → T (among (chain bytes.now placed.count placed.last) c) → c < 224 }
    ensures { out.new ≡ fronted (chain bytes.now placed.count placed.last) out.old }
{
    let mut call = placed.last;
    for n in (0..placed.count).rev() {
        out[n] = call;
        call = bytes[call as usize];
    }
}
