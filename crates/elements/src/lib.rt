// Primitives on the elements of arrays and the bytes of strings that are items of the stack. Each is lent the stack and the cells alone, and does to
// the machine that they stand for what its contract names. `put_byte_at` takes a string by its header, and shows the world.
#![tactic(auto)]

ghost use Rattle.std.specs.Prelude.{◌≡◌, List, ℕ, ◌+◌, ◌-◌, ◌*◌, ◌/◌, ◌^◌, ◌≤◌, ◌<◌, length};
ghost use Rattle.store.specs.Rep.{byte_of, with_byte};
ghost use Rattle.machine.specs.Words.{item_payload};
ghost use Rattle.machine.specs.Rep.{Somewhere, MovesHeap};
ghost use Rattle.elements.specs.Elements.{HasArray, HasElement, HasString, HasByte, HasObject, HasPlain, HasCell, SomewhereThat};
ghost use Rattle.elements.specs.Elements.{free_cells, ItemTag, ArraySize, StringSize, ByteOf, ItemSealed, item_sealed, element_copied, element_put, byte_put, PutsByte, array_made, string_made, MakesObject};

use heap::Value;
use machine::{Machine, TAG_ARRAY, TAG_STRING};

// The tag of item i.
// Ruled out: an item counted from the bottom; the payload read for the tag.
pub fn tag_of(m: Machine, stack: &[u32], i: usize) -> u32
    requires { (i < m.depth) × (2 * m.depth ≤ length stack.now) }
    ensures { ItemTag i m stack.now result }
{
    machine::item(stack, m.depth - 1 - i).tag
}

// How many cells are free.
// Ruled out: the cells that were given back left out; the words counted for cells.
pub fn free_cells(m: Machine, cells: &[u32]) -> u32
    requires { (s : List ℕ) × Somewhere m s cells.now }
    ensures { result ≡ free_cells m cells.now }
{
    let lists = m.lists;
    lists.listed + ((cells.len() / 4) as u32 - lists.edge)
}

// The number of elements of the array that is item i.
// Ruled out: the count of its names read for its size; another item's size.
pub fn size_of(m: Machine, stack: &[u32], cells: &[u32], i: usize) -> u32
    requires { (i < m.depth) × SomewhereThat (HasArray i) m stack.now cells.now }
    ensures { ArraySize i m stack.now cells.now result }
{
    let h = header_of(m, stack, i);
    heap::size(cells, h)
}

// Whether the array or string that is item i is read only.
// Ruled out: another item's mark; the mark read from the words of the value.
pub fn is_sealed(m: Machine, stack: &[u32], cells: &[u32], i: usize) -> bool
    requires { (i < m.depth) × SomewhereThat (HasObject i) m stack.now cells.now }
    ensures { ItemSealed i m stack.now cells.now result }
{
    let h = header_of(m, stack, i);
    heap::is_sealed(cells, h)
}

// The array or string that is item i is read only.
// Ruled out: the mark on another object; the mark on what its elements name.
pub fn seal(m: Machine, stack: &[u32], cells: &mut [u32], i: usize)
    requires { (i < m.depth) × SomewhereThat (HasObject i) m stack.now cells.old }
    ensures { MovesHeap (item_sealed i) m m stack.now stack.now cells.old cells.new }
{
    let h = header_of(m, stack, i);
    heap::seal(cells, h);
}

// Item j gives way to a copy of element q of the array that is item i. The element is counted before the item is let go: the item may be the array itself.
// Ruled out: the array let go before its element is counted; an element of another place.
pub fn copy_element(
    m: Machine,
    stack: &mut [u32],
    cells: &mut [u32],
    i: usize,
    q: u32,
    j: usize,
) -> Machine
    requires { (i < m.depth) × (j < m.depth) × SomewhereThat (HasElement i q) m stack.old cells.old }
    ensures moves_heap { MovesHeap (element_copied i q j) m result stack.old stack.new cells.old cells.new }
    ensures depth_value { result.depth ≡ m.depth }
{
    let h = header_of(m, stack, i);
    let c = heap::seek(cells, h, q);
    let value = heap::value_of(cells, c);
    m.put_value(stack, cells, j, value)
}

// Element q of the array that is item i becomes a copy of item j.
// Ruled out: what the element named left counted; another element changed.
pub fn put_element(
    mut m: Machine,
    stack: &[u32],
    cells: &mut [u32],
    i: usize,
    q: u32,
    j: usize,
) -> Machine
    requires { (i < m.depth) × (j < m.depth) × SomewhereThat (HasElement i q) m stack.now cells.old }
    ensures moves_heap { MovesHeap (element_put i q j) m result stack.now stack.now cells.old cells.new }
    ensures depth_value { result.depth ≡ m.depth }
{
    let lists = m.lists;
    let h = header_of(m, stack, i);
    let value = machine::item(stack, m.depth - 1 - j);
    let c = heap::seek(cells, h, q);
    let left = heap::assign(lists, cells, c, value);
    m.lists = left;
    m
}

// How many bytes the string that is item i has room for.
// Ruled out: the number of its cells for its bytes; a maximum one too large.
pub fn maximum(m: Machine, stack: &[u32], cells: &[u32], i: usize) -> u32
    requires { (i < m.depth) × SomewhereThat (HasString i) m stack.now cells.now }
    ensures { StringSize i m stack.now cells.now result }
{
    let h = header_of(m, stack, i);
    heap::kind(cells, h) - 1
}

// Byte q of the string that is item i.
// Ruled out: bytes in the other order in a word; the first word read for both.
pub fn get_byte(m: Machine, stack: &[u32], cells: &[u32], i: usize, q: u32) -> u8
    requires { (i < m.depth) × SomewhereThat (HasByte i q) m stack.now cells.now }
    ensures { ByteOf i q m stack.now cells.now result }
{
    let h = header_of(m, stack, i);
    let c = heap::seek(cells, h, q / 8);
    let w = heap::get(cells, c, (q % 8 / 4) as usize);
    byte_of(w, q % 8 % 4)
}

// Byte q of the string that is item i becomes b.
// Ruled out: the other bytes of the word lost; a byte added to the old one.
pub fn put_byte(m: Machine, stack: &[u32], cells: &mut [u32], i: usize, q: u32, b: u8)
    requires { (i < m.depth) × SomewhereThat (HasByte i q) m stack.now cells.old }
    ensures { MovesHeap (byte_put i q b) m m stack.now stack.now cells.old cells.new }
{
    let h = header_of(m, stack, i);
    put_byte_at(cells, h, q, b);
}

// Byte q of the string with header h becomes b.
// Ruled out: the other bytes of the word lost; another string's byte.
pub fn put_byte_at(cells: &mut [u32], h: u32, q: u32, b: u8)
    requires { HasCell cells.old h (q / 8) }
    ensures { PutsByte h q b cells.old cells.new }
{
    let c = heap::seek(cells, h, q / 8);
    let u = (q % 8 / 4) as usize;
    let w = heap::get(cells, c, u);
    heap::put(cells, c, u, with_byte(w, q % 8 % 4, b));
}

// Byte j of a word, four to a word, the lowest first.
pub fn byte_of(w: u32, j: u32) -> u8
    requires { j < 4 }
    ensures { result ≡ byte_of w j }
{
    (w / unit(j) % 256) as u8
}

// Item i, which names no object, gives way to a new array of n nulls.
// Ruled out: an array that no place names; one of another length; a cell taken that is not its own.
pub fn new_array(m: Machine, stack: &mut [u32], cells: &mut [u32], i: usize, n: u32) -> Machine
    requires { (i < m.depth) × (n + 1 ≤ free_cells m cells.old) × SomewhereThat (HasPlain i) m stack.old cells.old }
    ensures moves_heap { MovesHeap (array_made i n) m result stack.old stack.new cells.old cells.new }
    ensures depth_value { result.depth ≡ m.depth }
    ensures room { free_cells result cells.new + (n + 1) ≡ free_cells m cells.old }
{
    new_object(m, stack, cells, i, 0, n, TAG_ARRAY)
}

// Item i, which names no object, gives way to a new string of maximum n, all zeros.
// Ruled out: a last cell that is missing where n is no multiple of 8; bytes left from before.
pub fn new_string(m: Machine, stack: &mut [u32], cells: &mut [u32], i: usize, n: u32) -> Machine
    requires { (i < m.depth) × ((n + 7) / 8 + 1 ≤ free_cells m cells.old) × SomewhereThat (HasPlain i) m stack.old cells.old }
    ensures moves_heap { MovesHeap (string_made i n) m result stack.old stack.new cells.old cells.new }
    ensures depth_value { result.depth ≡ m.depth }
{
    new_object(m, stack, cells, i, n + 1, (n + 7) / 8, TAG_STRING)
}

// Item i, which names no object, gives way to a new object of this kind and so many cells. What the tag has to do with the kind is the caller's.
fn new_object(
    mut m: Machine,
    stack: &mut [u32],
    cells: &mut [u32],
    i: usize,
    kind: u32,
    size: u32,
    tag: u32,
) -> Machine
    requires { (i < m.depth) × (size + 1 ≤ free_cells m cells.old) × Somewhere m stack.old cells.old }
    ensures makes_object { MakesObject i kind size tag m result stack.old stack.new cells.old cells.new }
    ensures depth_value { result.depth ≡ m.depth }
    ensures room { free_cells result cells.new + (size + 1) ≡ free_cells m cells.old }
{
    let k = m.depth - 1 - i;
    let lists = m.lists;
    let t = heap::allocate(lists, cells, kind, size);
    let left = t.lists;
    machine::set_item(stack, k, Value { tag, pay: t.cell });
    m.lists = left;
    m
}

// The header that item i names.
#[inline(always)]
fn header_of(m: Machine, stack: &[u32], i: usize) -> u32
    requires { (i < m.depth) × (2 * m.depth ≤ length stack.now) }
    ensures { result ≡ item_payload stack.now (m.depth - 1 - i) }
{
    machine::item(stack, m.depth - 1 - i).pay
}

// The word with b for its byte j.
fn with_byte(w: u32, j: u32, b: u8) -> u32
    requires { j < 4 }
    ensures { result ≡ with_byte w j b }
{
    let u = unit(j);
    w - w / u % 256 * u + (b as u32) * u
}

// What byte j of a word counts.
fn unit(j: u32) -> u32
    requires { j < 4 }
    ensures { result ≡ 2 ^ (8 * j) }
{
    1 << (8 * j)
}
