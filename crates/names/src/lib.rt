// The names that have dictionary slots, by their lengths and bytes: word 12 k of slot k is the length, and the eight words after it hold the bytes.
#![tactic(auto)]

ghost use Rattle.std.specs.Prelude.{◌+◌, ◌*◌, ◌≤◌, ◌<◌, length};
ghost use Rattle.names.specs.Names.{NameSize, NameByte};

use machine::SPELLING;
use semantics::DICTIONARY_WIDTH;

// The number of bytes of the name in a slot.
// Ruled out: another slot's length; a length in words.
pub fn name_size(dict: &[u32], slot: usize) -> usize
    requires { 12 * slot + 12 ≤ length dict.now }
    ensures { NameSize slot dict.now result }
{
    let n = dict[DICTIONARY_WIDTH * slot];
    n as usize
}

// Byte j of the name in a slot.
// Ruled out: the length read for bytes; the bytes of a word in the other order.
pub fn name_byte(dict: &[u32], slot: usize, j: usize) -> u8
    requires { (12 * slot + 12 ≤ length dict.now) × (j < 32) }
    ensures { NameByte slot j dict.now result }
{
    let w = dict[DICTIONARY_WIDTH * slot + SPELLING + j / 4];
    elements::byte_of(w, (j % 4) as u32)
}
