// Which call is a direct predecessor of which: SPECIFICATION, Precedence 1 to 5.
#![tactic(auto, unfolding(crate::specs::Computed::words))]

ghost use Rattle.std.specs.Prelude.{◌≡◌, ◌&&◌, ◌<◌, eqb};
ghost use Rattle.table.specs.Packed.{pair_input, pair_output, shape_of};
ghost use Rattle.calls.specs.declared.Call.TheVariants.{Step, Get, Set};
ghost use Rattle.calls.specs.Precedence.{
  has_kind,
  feeds_to,
  before,
  precedes as precedes-test,
};

use crate::Call;
use crate::number::call_of;
use table::parts::{
    byte, feed_count, feed_pairs, input_kinds, input_owners, input_sources, output_owners,
};

// Has input x of unit u this kind?
fn has_kind(table: &[u8], kind: usize, x: usize, u: usize) -> bool
    ensures { result ≡ has_kind (shape_of table.now) kind x u }
{
    byte(input_kinds(table), x) == kind && byte(input_owners(table), x) == u
}

// Is feed k of input x to output y?
fn is_feed(pairs: &[u8], k: usize, x: usize, y: usize) -> bool
    requires { k < 256 }
    ensures { result ≡ (eqb (pair_input pairs.now k) x
        && eqb (pair_output pairs.now k) y) }
{
    byte(pairs, 2 * k) == x && byte(pairs, 2 * k + 1) == y
}

// Does input x feed output y?
fn feeds_to(table: &[u8], x: usize, y: usize) -> bool
    ensures { result ≡ feeds_to (shape_of table.now) x y }
{
    let pairs = feed_pairs(table);
    (0..feed_count(table)).any(|k| is_feed(pairs, k, x, y))
}

// Does the step of unit u come before this call?
fn step_before(table: &[u8], u: usize, call: Call) -> bool
    ensures { result ≡ before (shape_of table.now) (Step u) call }
{
    match call {
        Call::Step(_) => false,
        Call::Get(y) => byte(output_owners(table), y) == u,
        Call::Set(x) => has_kind(table, 0, x, u),
        Call::NoCall => false,
    }
}

// Does the get of output y come before this call?
fn get_before(table: &[u8], y: usize, call: Call) -> bool
    ensures { result ≡ before (shape_of table.now) (Get y) call }
{
    match call {
        Call::Step(_) => false,
        Call::Get(_) => false,
        Call::Set(x) => byte(input_sources(table), x) == y,
        Call::NoCall => false,
    }
}

// Does the set of input x come before this call?
fn set_before(table: &[u8], x: usize, call: Call) -> bool
    ensures { result ≡ before (shape_of table.now) (Set x) call }
{
    match call {
        Call::Step(u) => has_kind(table, 1, x, u),
        Call::Get(y) => feeds_to(table, x, y),
        Call::Set(_) => false,
        Call::NoCall => false,
    }
}

// Is the first call a direct predecessor of the second?
pub fn precedes(table: &[u8], first: usize, second: usize) -> bool
    ensures { result ≡ precedes-test (shape_of table.now) first second }
{
    let later = call_of(table, second);
    let earlier = call_of(table, first);
    match earlier {
        Call::Step(u) => step_before(table, u, later),
        Call::Get(y) => get_before(table, y, later),
        Call::Set(x) => set_before(table, x, later),
        Call::NoCall => false,
    }
}
