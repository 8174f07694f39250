// The dictionary: a name's slot is found or added, and bindings go to items, to execution slots and come from items. Each function keeps `Rep`, and
// does to the machine of the definition what its contract names.
#![tactic(auto)]

ghost use Rattle.std.specs.Prelude.{◌≡◌, ◌+◌, ◌*◌, ◌≤◌, ◌<◌, length, set, get_or, unwrap_or, IfSome};
ghost use Rattle.machine.specs.Words.{binding_tag, binding_payload};
ghost use Rattle.semantics.specs.Sizes.{name_most, dictionary_words_most};
ghost use Rattle.dictionary.specs.Names.{Finds, Adds};
ghost use Rattle.dictionary.specs.Listing.{Ends, IsNamed};
ghost use Rattle.dictionary.specs.Packing.{Packs, Spells, Agrees, Tells, First, Bytes};
ghost use Rattle.dictionary.specs.Bindings.{BoundItems, BoundFrames, NamedItems, LoadsBinding, PendsBinding, BindsItem, NamedStack, PutsName};

use heap::Value;
use machine::{BINDING_PAYLOAD, BINDING_TAG, Machine, SPELLING, TAG_LITERAL, TAG_UNBOUND};
use semantics::DICTIONARY_WIDTH;

// The slot of a name, if it has one. The name is packed once, so that a slot takes a comparison of words and none of bytes.
// Ruled out: a name taken for a longer one that starts like it; a slot past the last one.
pub fn find(m: Machine, dict: &[u32], name: &[u8]) -> Option<usize>
    requires { (length name.now ≤ name_most) × (12 * m.names ≤ length dict.now) × (length dict.now ≤ dictionary_words_most) }
    ensures finds { Finds m dict.now name.now (unwrap_or result m.names) }
    ensures upper_bound { IfSome result (λ k. k < m.names) }
{
    let mut words = [0u32; 8];
    pack(name, &mut words, 0);
    let n = m.names;
    first(dict, n, name.len() as u32, &words)
}

// A name that has no slot takes the next one, unbound.
// Ruled out: a slot over that of another name; bytes of an earlier name left after the new one.
pub fn add(mut m: Machine, dict: &mut [u32], name: &[u8]) -> Machine
    requires { (length name.now ≤ name_most) × (12 * m.names + 12 ≤ length dict.old) × (length dict.old ≤ dictionary_words_most) }
    ensures adds { Adds m result dict.old dict.new name.now }
    ensures names_value { (result.names ≡ m.names + 1) × (result.depth ≡ m.depth) × (result.frames ≡ m.frames) × (result.lists ≡ m.lists) }
{
    let n = m.names;
    spell(dict, n, name);
    dict[DICTIONARY_WIDTH * n + BINDING_TAG] = TAG_UNBOUND;
    m.names = n + 1;
    m
}

// A name's length and bytes go into a slot.
// Ruled out: bytes of an earlier name left after the new one; a binding changed.
pub fn spell(dict: &mut [u32], slot: usize, name: &[u8])
    requires { (length name.now ≤ name_most) × (12 * slot + 12 ≤ length dict.old) × (length dict.old ≤ dictionary_words_most) }
    ensures { Spells slot name.now dict.old dict.new }
{
    dict[DICTIONARY_WIDTH * slot] = name.len() as u32;
    pack(name, dict, DICTIONARY_WIDTH * slot + SPELLING);
}

// Item i gives way to a copy of the slot's binding.
// Ruled out: a copy whose object is not counted; the item let go before the binding is counted.
pub fn load_binding(
    m: Machine,
    stack: &mut [u32],
    dict: &[u32],
    cells: &mut [u32],
    slot: usize,
    i: usize,
) -> Machine
    requires { (i < m.depth) × BoundItems slot m stack.old dict.now cells.old }
    ensures loads_binding { LoadsBinding slot i m result stack.old stack.new dict.now cells.old cells.new }
    ensures depth_value { result.depth ≡ m.depth }
{
    let value = binding(dict, slot);
    m.put_value(stack, cells, i, value)
}

// A copy of the slot's binding becomes pending.
// Ruled out: a procedure that is freed while a slot still runs it; the slot below written over.
pub fn pend_binding(
    m: Machine,
    exec: &mut [u32],
    dict: &[u32],
    cells: &mut [u32],
    slot: usize,
) -> Machine
    requires { (8 * m.frames + 8 ≤ length exec.old) × BoundFrames slot m exec.old dict.now cells.old }
    ensures pends_binding { PendsBinding slot m result exec.old exec.new dict.now cells.old cells.new }
    ensures depth_value { (result.depth ≡ m.depth) × (result.frames ≡ m.frames + 1) }
{
    let value = binding(dict, slot);
    frames::pend(m, exec, cells, value)
}

// The slot's binding becomes a copy of item i.
// Ruled out: the old binding let go before the new one is counted; another slot's binding changed.
pub fn bind_item(
    mut m: Machine,
    stack: &[u32],
    dict: &mut [u32],
    cells: &mut [u32],
    slot: usize,
    i: usize,
) -> Machine
    requires { (i < m.depth) × NamedItems slot m stack.now dict.old cells.old }
    ensures binds_item { BindsItem slot i m result stack.now dict.old dict.new cells.old cells.new }
    ensures depth_value { result.depth ≡ m.depth }
{
    let lists = m.lists;
    let new = machine::item(stack, m.depth - 1 - i);
    let old = binding(dict, slot);
    let left = machine::recount(lists, cells, old, new);
    set_binding(dict, slot, new);
    m.lists = left;
    m
}

// Item i gives way to the literal name that has this slot.
// Ruled out: the item's object left counted; an executable name.
pub fn put_name(m: Machine, stack: &mut [u32], cells: &mut [u32], slot: u32, i: usize) -> Machine
    requires { (i < m.depth) × NamedStack slot m stack.old cells.old }
    ensures puts_name { PutsName slot i m result stack.old stack.new cells.old cells.new }
    ensures depth_value { result.depth ≡ m.depth }
{
    m.put_value(
        stack,
        cells,
        i,
        Value {
            tag: TAG_LITERAL,
            pay: slot,
        },
    )
}

// The slot's binding.
// Ruled out: another slot's; the words of the name read for it.
#[inline(always)]
pub fn binding(dict: &[u32], slot: usize) -> Value
    requires { (12 * slot + 12 ≤ length dict.now) × (length dict.now ≤ dictionary_words_most) }
    ensures { (result.tag ≡ binding_tag dict.now slot) × (result.pay ≡ binding_payload dict.now slot) }
{
    Value {
        tag: dict[DICTIONARY_WIDTH * slot + BINDING_TAG],
        pay: dict[DICTIONARY_WIDTH * slot + BINDING_PAYLOAD],
    }
}

// The slot's binding becomes the value; nothing is counted.
fn set_binding(dict: &mut [u32], slot: usize, value: Value)
    requires { (12 * slot + 12 ≤ length dict.old) × (length dict.old ≤ dictionary_words_most) }
    ensures { dict.new ≡ set (set dict.old (12 * slot + 9) value.tag) (12 * slot + 10) value.pay }
{
    dict[DICTIONARY_WIDTH * slot + BINDING_TAG] = value.tag;
    dict[DICTIONARY_WIDTH * slot + BINDING_PAYLOAD] = value.pay;
}

// Whether the slot has this name.
// Ruled out: a name taken for a longer one that starts like it.
pub fn is_named(dict: &[u32], slot: usize, name: &[u8]) -> bool
    requires { (length name.now ≤ name_most) × (12 * slot + 12 ≤ length dict.now) × (length dict.now ≤ dictionary_words_most) }
    ensures { IsNamed dict.now slot name.now result }
{
    let mut words = [0u32; 8];
    pack(name, &mut words, 0);
    agrees(dict, DICTIONARY_WIDTH * slot, name.len() as u32, &words)
}

// The place of the next blank in a list of names; the end where there is none.
pub fn blank_from(list: &[u8], at: usize) -> usize
    requires { at ≤ length list.now }
    ensures { Ends list.now at result }
{
    for end in at..list.len() {
        if list[end] == b' ' {
            return end;
        }
    }
    list.len()
}

// The first of n slots that has this size and these words.
fn first(dict: &[u32], n: usize, size: u32, words: &[u32]) -> Option<usize>
    requires { (12 * n ≤ length dict.now) × (length dict.now ≤ dictionary_words_most) × (length words.now ≡ 8) }
    ensures first { First dict.now n size words.now (unwrap_or result n) }
    ensures upper_bound { IfSome result (λ k. k < n) }
{
    for k in 0..n {
        if agrees(dict, DICTIONARY_WIDTH * k, size, words) {
            return Some(k);
        }
    }
    None
}

// Whether the slot at this place has this size and these words. The sizes mostly differ.
fn agrees(dict: &[u32], at: usize, size: u32, words: &[u32]) -> bool
    requires { (at + 12 ≤ length dict.now) × (length dict.now ≤ dictionary_words_most) × (length words.now ≡ 8) }
    ensures { Tells (Agrees dict.now at size words.now) result }
{
    if dict[at] != size {
        return false;
    }
    for i in 0..8 {
        if dict[at + SPELLING + i] != words[i] {
            return false;
        }
    }
    true
}

// The name's bytes go into eight words from `at` on, with zeros after them.
fn pack(name: &[u8], words: &mut [u32], at: usize)
    requires { (at + 8 ≤ length words.old) × (length words.old ≤ dictionary_words_most) }
    ensures { Packs 8 name.now at words.old words.new }
{
    for i in 0..8 {
        words[at + i] = packed(name, 4 * i);
    }
}

// Four bytes in a word, the lowest first.
fn packed(name: &[u8], start: usize) -> u32
    requires { start ≤ 28 }
    ensures { Bytes name.now start result }
{
    let a = byte_at(name, start) as u32;
    let b = byte_at(name, start + 1) as u32;
    let c = byte_at(name, start + 2) as u32;
    let d = byte_at(name, start + 3) as u32;
    a + 256 * b + 65536 * c + 16777216 * d
}

// Byte k of a name; zero past its end.
fn byte_at(name: &[u8], k: usize) -> u8
    ensures { result ≡ get_or name.now k 0 }
{
    if name.len() <= k {
        return 0;
    }
    name[k]
}
