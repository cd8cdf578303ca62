// The tables of SPECIFICATION, Examples, and some like them.

// Pump and tank, the pump's input delayed and the tank's reactive.
pub const A: [u8; 12] = [2, 2, 2, 0, 0, 1, 0, 1, 0, 1, 1, 0];

// A, both reactive.
pub const A_REACTIVE: [u8; 12] = [2, 2, 2, 0, 0, 1, 0, 1, 1, 1, 1, 0];

// A with both inputs delayed.
pub const C: [u8; 12] = [2, 2, 2, 0, 0, 1, 0, 1, 0, 0, 1, 0];

// C with feed (1,1).
pub const G: [u8; 14] = [2, 2, 2, 1, 0, 1, 0, 1, 0, 0, 1, 0, 1, 1];

// One unit and no port.
pub const ALONE: [u8; 4] = [1, 0, 0, 0];

// Three units, every input reactive: 1 and 2 are joined to themselves, 0 reads from 2.
pub const BEHIND: [u8; 15] = [3, 2, 3, 0, 1, 2, 1, 2, 0, 1, 1, 1, 0, 1, 1];

// Three units: 0 is joined to itself by a delayed input, 1 by a reactive one, 2 has no port.
pub const BESIDE: [u8; 12] = [3, 2, 2, 0, 0, 1, 0, 1, 0, 1, 0, 1];

// One unit with two outputs; its input is joined to the first and feeds the second.
pub const SECOND_FED: [u8; 11] = [1, 2, 1, 1, 0, 0, 0, 0, 0, 0, 1];

// One unit with a delayed and a reactive input, both joined to its output.
pub const BOTH_KINDS: [u8; 11] = [1, 1, 2, 0, 0, 0, 0, 0, 1, 0, 0];

// A with another byte at a place.
pub fn a_with(place: usize, byte: u8) -> [u8; 12] {
    let mut table = A;
    if place < 12 {
        table[place] = byte;
    }
    table
}

// C with two feeds.
pub fn c_fed(input: u8, output: u8, second_input: u8, second_output: u8) -> [u8; 16] {
    let mut table = [2u8, 2, 2, 2, 0, 1, 0, 1, 0, 0, 1, 0, 0, 0, 0, 0];
    table[12] = input;
    table[13] = output;
    table[14] = second_input;
    table[15] = second_output;
    table
}

// One unit joined to itself, by an input of this kind.
pub fn itself(kind: u8) -> [u8; 8] {
    let mut table = [1u8, 1, 1, 0, 0, 0, 0, 0];
    table[6] = kind;
    table
}

// The greatest table: all ports of unit 0, the first 96 feeds from input 0, the rest from input 1.
pub fn greatest() -> [u8; 644] {
    let mut table = [0u8; 644];
    table[0] = 32;
    table[1] = 96;
    table[2] = 96;
    table[3] = 128;
    for k in 0..128 {
        table[388 + 2 * k] = (k / 96) as u8;
        table[389 + 2 * k] = (k % 96) as u8;
    }
    table
}
