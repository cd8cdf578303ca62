// The check of a packed table: SPECIFICATION, Packed table 6.
ghost use Rattle.std.specs.Prelude.{◌≡◌, ◌||◌, ◌+◌, ◌*◌, ◌/◌, ◌<◌, length};
ghost use Rattle.table.specs.Packed.{asked};
ghost use Rattle.table.specs.Check.{
  counts_in,
  all_below,
  is_pair,
  feed_known,
  feed_again,
  feeds_from,
  wiring as wiring_of,
  refusal as refusal_of,
  checked,
};
ghost use Rattle.table.specs.Fault.{number_of};

use crate::parts::{
    feed_count, feed_pairs, input_count, input_kinds, input_owners, input_sources, output_count,
    output_owners, unit_count,
};
use crate::sound::Table;
use crate::{Answer, Fault};

// Is each count in its range?
#[tactic(auto, unfolding(crate::specs::Check::counts_in))]
fn counts_in(u: usize, y: usize, x: usize, f: usize) -> bool
    ensures { result ≡ counts_in u y x f }
{
    1 <= u && u <= 32 && y <= 96 && x <= 96 && f <= 128
}

// Is each byte of a part below the bound?
fn all_below(bytes: &[u8], bound: usize) -> bool
    ensures { result ≡ all_below bound bytes.now }
{
    bytes.iter().all(|byte| usize::from(*byte) < bound)
}

// Does pair k name an input and an output of one unit?
#[tactic(auto, unfolding(crate::specs::Check::feed_known))]
fn feed_known(outs: &[u8], ins: &[u8], pairs: &[u8], k: usize) -> bool
    requires { 2 * k + 1 < length pairs.now }
    ensures { result ≡ feed_known outs.now ins.now pairs.now k }
{
    let input = pairs[2 * k] as usize;
    let output = pairs[2 * k + 1] as usize;
    input < ins.len() && output < outs.len() && ins[input] == outs[output]
}

// The two bytes of a pair as one number.
fn word(input: u8, output: u8) -> u16
    ensures { result ≡ input + 256 * output }
{
    input as u16 + 256 * output as u16
}

// Is pair j this one?
#[tactic(auto, unfolding(crate::specs::Check::is_pair))]
fn is_pair(pairs: &[u8], j: usize, input: u8, output: u8) -> bool
    requires { 2 * j + 1 < length pairs.now }
    ensures { result ≡ is_pair pairs.now j input output }
{
    word(pairs[2 * j], pairs[2 * j + 1]) == word(input, output)
}

// Is one of the four pairs from pair j on this one? All four are looked at, with one branch.
fn is_of_four(pairs: &[u8], j: usize, input: u8, output: u8) -> bool
    requires { 2 * j + 7 < length pairs.now }
    ensures { result
        ≡ (is_pair pairs.now j input output || (is_pair pairs.now (j + 1) input output
        || (is_pair pairs.now (j + 2) input output || is_pair pairs.now (j + 3) input output))) }
{
    is_pair(pairs, j, input, output)
        | is_pair(pairs, j + 1, input, output)
        | is_pair(pairs, j + 2, input, output)
        | is_pair(pairs, j + 3, input, output)
}

// Was pair k given before?
fn feed_again(pairs: &[u8], k: usize) -> bool
    requires { 2 * k + 1 < length pairs.now }
    ensures { result ≡ feed_again pairs.now k }
{
    let input = pairs[2 * k];
    let output = pairs[2 * k + 1];
    (0..k / 4).any(|j| is_of_four(pairs, 4 * j, input, output))
        || (0..k % 4).any(|j| is_pair(pairs, k / 4 * 4 + j, input, output))
}

// The feeds, pair by pair.
fn feeds_refusal(outs: &[u8], ins: &[u8], pairs: &[u8]) -> Result<(), Fault>
    ensures { number_of result ≡ feeds_from outs.now ins.now pairs.now (length pairs.now / 2) 0 }
{
    for k in 0..pairs.len() / 2 {
        if !feed_known(outs, ins, pairs, k) {
            return Err(Fault::Feed);
        }
        if feed_again(pairs, k) {
            return Err(Fault::FeedTwice);
        }
    }
    Ok(())
}

// Owners, kinds, sources and feeds of a table of the length that its counts ask.
#[tactic(auto, using(crate::specs::Layout::pair_count), unfolding(crate::specs::Chain::chain))]
fn wiring(table: &[u8]) -> Result<(), Fault>
    requires { length table.now ≡ asked table.now }
    ensures { number_of result ≡ wiring_of table.now }
{
    let units = unit_count(table);
    let outputs = output_count(table);
    let outs = output_owners(table);
    let ins = input_owners(table);
    if !all_below(outs, units) {
        return Err(Fault::Owner);
    }
    if !all_below(ins, units) {
        return Err(Fault::Owner);
    }
    if !all_below(input_kinds(table), 2) {
        return Err(Fault::Kind);
    }
    if !all_below(input_sources(table), outputs) {
        return Err(Fault::Source);
    }
    feeds_refusal(outs, ins, feed_pairs(table))
}

// The first check that fails, if one does.
// A frame of its own, so that who asks for a table keeps no room for the answer.
#[inline(never)]
#[tactic(auto, unfolding(crate::specs::Chain::chain))]
pub(crate) fn refusal(table: &[u8]) -> Result<(), Fault>
    ensures { number_of result ≡ refusal_of table.now }
{
    if table.len() < 4 {
        return Err(Fault::Length);
    }
    let y = output_count(table);
    let x = input_count(table);
    let f = feed_count(table);
    if !counts_in(unit_count(table), y, x, f) {
        return Err(Fault::Count);
    }
    if table.len() != 4 + y + 3 * x + 2 * f {
        return Err(Fault::Length);
    }
    wiring(table)
}

// The check: 1 to 7 with place 0, or 0 with N.
#[tactic(auto, unfolding(crate::specs::Chain::chain))]
pub fn check(table: &[u8]) -> Answer
    ensures { result ≡ checked table.now }
{
    match Table::new(table) {
        Ok(table) => Answer {
            number: 0,
            place: table.call_count(),
        },
        Err(fault) => Answer::from(fault),
    }
}
