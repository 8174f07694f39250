// The operators on arrays and strings: array, string, length, get, put, aload, astore, ] and readonly. Each does exactly what the definition's operator of its name
// does and then the definition's test of room, errors and their order included. Nothing is changed before the last check.
#![tactic(auto)]

ghost use Rattle.std.specs.Prelude.{◌≡◌, ◌&&◌, ◌||◌, ◌+◌, ◌-◌, ◌*◌, ◌^◌, ◌≤◌, ◌<◌, eqb, ltb, length as length_of, IfSome};
ghost use Rattle.semantics.specs.Text.{bytes};
ghost use Rattle.semantics.specs.Operators.{perform};
ghost use Rattle.machine.specs.Operands.{one_low};
ghost use Rattle.machine.specs.Rep.{Somewhere, MovesHeap};
ghost use Rattle.machine.specs.Room.{DoesHeap};
ghost use Rattle.elements.specs.Elements.{HasString, SomewhereThat, ItemTag, ByteOf, byte_put};
ghost use Rattle.array_operators.specs.Items.{FetchesLength, longest, IntegerItem, ArrayItem, StringItem, ItemLength};
ghost use Rattle.array_operators.specs.Items.{HasFirst, MarkAbove, popped, spread_out, items_put};

use machine::{Machine, TAG_ARRAY, TAG_INTEGER, TAG_MARK, TAG_NULL, TAG_STRING};
use semantics::Error;
use word::SIGN;

// The most elements of an array, and bytes of a string.
const LONGEST: u32 = 32767;

// Ruled out: limitcheck for a negative length, and an array that takes as many cells as it has elements.
pub fn array(m: Machine, stack: &mut [u32], cells: &mut [u32]) -> Result<Machine, Error>
    requires { Somewhere m stack.old cells.old }
    ensures { DoesHeap (perform (bytes "array")) m stack.old stack.new cells.old cells.new result }
{
    let n = new_length(m, stack)?;
    if elements::free_cells(m, cells) < n + 1 {
        return Err(Error::VmError);
    }
    Ok(elements::new_array(m, stack, cells, 0, n))
}

// Ruled out: VMerror for the cells of as many elements, and a string without its header.
pub fn string(m: Machine, stack: &mut [u32], cells: &mut [u32]) -> Result<Machine, Error>
    requires { Somewhere m stack.old cells.old }
    ensures { DoesHeap (perform (bytes "string")) m stack.old stack.new cells.old cells.new result }
{
    let n = new_length(m, stack)?;
    if elements::free_cells(m, cells) < (n + 7) / 8 + 1 {
        return Err(Error::VmError);
    }
    Ok(elements::new_string(m, stack, cells, 0, n))
}

// Ruled out: the maximum of a string, and stackoverflow on a full stack.
pub fn length(m: Machine, stack: &mut [u32], cells: &mut [u32]) -> Result<Machine, Error>
    requires { Somewhere m stack.old cells.old }
    ensures { DoesHeap (perform (bytes "length")) m stack.old stack.new cells.old cells.new result }
{
    m.needs(1)?;
    let tag = elements::tag_of(m, stack, 0);
    if tag < TAG_STRING {
        return Err(Error::TypeCheck);
    }
    let n = length_of(m, stack, cells, 0, tag);
    let left = m.drop(stack, cells);
    Ok(left.push_scalar(stack, TAG_INTEGER, n))
}

// Ruled out: rangecheck for a negative index of something that is no array or string, and an operand that is gone where the index is too large.
pub fn get(m: Machine, stack: &mut [u32], cells: &mut [u32]) -> Result<Machine, Error>
    requires { Somewhere m stack.old cells.old }
    ensures { DoesHeap (perform (bytes "get")) m stack.old stack.new cells.old cells.new result }
{
    m.needs(2)?;
    let tag = elements::tag_of(m, stack, 1);
    if tag < TAG_STRING {
        return Err(Error::TypeCheck);
    }
    let n = m.int_at(stack, 0)?;
    if SIGN <= n {
        return Err(Error::RangeCheck);
    }
    if tag == TAG_STRING {
        return get_from_string(m, stack, cells, n);
    }
    get_from_array(m, stack, cells, n)
}

// Ruled out: a byte over 255 that is cut, rangecheck for the index of a string where what is put is no integer, and rangecheck where the target is read only.
pub fn put(m: Machine, stack: &mut [u32], cells: &mut [u32]) -> Result<Machine, Error>
    requires { Somewhere m stack.old cells.old }
    ensures { DoesHeap (perform (bytes "put")) m stack.old stack.new cells.old cells.new result }
{
    m.needs(3)?;
    let tag = elements::tag_of(m, stack, 2);
    if tag < TAG_STRING {
        return Err(Error::TypeCheck);
    }
    let n = m.int_at(stack, 1)?;
    if tag == TAG_STRING {
        return put_in_string(m, stack, cells, n);
    }
    put_in_array(m, stack, cells, n)
}

// Ruled out: elements in the other order, and stackoverflow where they just fit.
pub fn aload(m: Machine, stack: &mut [u32], cells: &mut [u32]) -> Result<Machine, Error>
    requires { Somewhere m stack.old cells.old }
    ensures { DoesHeap (perform (bytes "aload")) m stack.old stack.new cells.old cells.new result }
{
    m.needs(1)?;
    if elements::tag_of(m, stack, 0) < TAG_ARRAY {
        return Err(Error::TypeCheck);
    }
    let n = elements::size_of(m, stack, cells, 0) as usize;
    m.has_room(stack, n)?;
    Ok(spread(m, stack, cells, n))
}

// The array may be among the items: all are put before any goes. Ruled out: elements in the other order, the array itself counted among the items, and
// stackunderflow where it is read only.
pub fn astore(m: Machine, stack: &mut [u32], cells: &mut [u32]) -> Result<Machine, Error>
    requires { Somewhere m stack.old cells.old }
    ensures { DoesHeap (perform (bytes "astore")) m stack.old stack.new cells.old cells.new result }
{
    m.needs(1)?;
    if elements::tag_of(m, stack, 0) < TAG_ARRAY {
        return Err(Error::TypeCheck);
    }
    if elements::is_sealed(m, stack, cells, 0) {
        return Err(Error::InvalidAccess);
    }
    let n = elements::size_of(m, stack, cells, 0) as usize;
    m.needs(n + 1)?;
    let stored = store_items(m, stack, cells, 0, n + 1, n);
    let turned = stored.swap(stack, 0, n);
    Ok(drop_items(turned, stack, cells, n))
}

// ]: the new array takes the mark's place. Ruled out: VMerror where no mark is there, and elements in the other order.
pub fn close(m: Machine, stack: &mut [u32], cells: &mut [u32]) -> Result<Machine, Error>
    requires { Somewhere m stack.old cells.old }
    ensures { DoesHeap (perform (bytes "]")) m stack.old stack.new cells.old cells.new result }
{
    let Some(n) = above_mark(m, stack) else {
        return Err(Error::UnmatchedMark);
    };
    let size = n as u32;
    if elements::free_cells(m, cells) < size + 1 {
        return Err(Error::VmError);
    }
    let made = elements::new_array(m, stack, cells, n, size);
    let stored = store_items(made, stack, cells, n, n, n);
    Ok(drop_items(stored, stack, cells, n))
}

// The object stays on the stack, with the mark for read only. Ruled out: the mark taken away by a second readonly, and typecheck for a procedure.
pub fn readonly(m: Machine, stack: &[u32], cells: &mut [u32]) -> Result<Machine, Error>
    requires { Somewhere m stack.now cells.old }
    ensures { DoesHeap (perform (bytes "readonly")) m stack.now stack.now cells.old cells.new result }
{
    m.needs(1)?;
    if elements::tag_of(m, stack, 0) < TAG_STRING {
        return Err(Error::TypeCheck);
    }
    elements::seal(m, stack, cells, 0);
    Ok(m)
}

// The length that array and string are given, or what is wrong with it.
fn new_length(m: Machine, stack: &[u32]) -> Result<u32, Error>
    requires { 2 * m.depth ≤ length_of stack.now }
    ensures fetches_length { FetchesLength m stack.now result }
    ensures result_bound { one_low result ≤ m.depth }
    ensures result_bound_2 { longest result ≤ 32767 }
{
    let n = m.one_int(stack)?;
    if SIGN <= n {
        return Err(Error::RangeCheck);
    }
    if LONGEST < n {
        return Err(Error::LimitCheck);
    }
    Ok(n)
}

// The length of the array or string that is item i, of this tag.
fn length_of(m: Machine, stack: &[u32], cells: &[u32], i: usize, tag: u32) -> u32
    requires { (i < m.depth) × (8 ≤ tag) × ItemTag i m stack.now tag × Somewhere m stack.now cells.now }
    ensures { ItemLength i m stack.now cells.now result }
{
    if tag == TAG_STRING {
        return strings::current_length(m, stack, cells, i);
    }
    elements::size_of(m, stack, cells, i)
}

fn get_from_array(
    m: Machine,
    stack: &mut [u32],
    cells: &mut [u32],
    n: u32,
) -> Result<Machine, Error>
    requires { (2 ≤ m.depth) × (n < 2 ^ 31) × ArrayItem 1 m stack.old × IntegerItem 0 n m stack.old × Somewhere m stack.old cells.old }
    ensures { DoesHeap (perform (bytes "get")) m stack.old stack.new cells.old cells.new result }
{
    if elements::size_of(m, stack, cells, 1) <= n {
        return Err(Error::RangeCheck);
    }
    let found = elements::copy_element(m, stack, cells, 1, n, 1);
    Ok(found.drop(stack, cells))
}

fn get_from_string(
    m: Machine,
    stack: &mut [u32],
    cells: &mut [u32],
    n: u32,
) -> Result<Machine, Error>
    requires { (2 ≤ m.depth) × (n < 2 ^ 31) × StringItem 1 m stack.old × IntegerItem 0 n m stack.old × Somewhere m stack.old cells.old }
    ensures { DoesHeap (perform (bytes "get")) m stack.old stack.new cells.old cells.new result }
{
    if elements::maximum(m, stack, cells, 1) < n {
        return Err(Error::RangeCheck);
    }
    let b = byte_or_zero(m, stack, cells, 1, n);
    let left = drop_items(m, stack, cells, 2);
    Ok(left.push_scalar(stack, TAG_INTEGER, b))
}

fn put_in_array(m: Machine, stack: &mut [u32], cells: &mut [u32], n: u32) -> Result<Machine, Error>
    requires { (3 ≤ m.depth) × ArrayItem 2 m stack.old × IntegerItem 1 n m stack.old × Somewhere m stack.old cells.old }
    ensures { DoesHeap (perform (bytes "put")) m stack.old stack.new cells.old cells.new result }
{
    if elements::is_sealed(m, stack, cells, 2) {
        return Err(Error::InvalidAccess);
    }
    if SIGN <= n {
        return Err(Error::RangeCheck);
    }
    if elements::size_of(m, stack, cells, 2) <= n {
        return Err(Error::RangeCheck);
    }
    let left = elements::put_element(m, stack, cells, 2, n, 0);
    Ok(drop_items(left, stack, cells, 3))
}

// A word over 255 is a byte too large or a negative integer.
fn put_in_string(m: Machine, stack: &mut [u32], cells: &mut [u32], n: u32) -> Result<Machine, Error>
    requires { (3 ≤ m.depth) × StringItem 2 m stack.old × IntegerItem 1 n m stack.old × Somewhere m stack.old cells.old }
    ensures { DoesHeap (perform (bytes "put")) m stack.old stack.new cells.old cells.new result }
{
    let b = m.int_at(stack, 0)?;
    let sealed = elements::is_sealed(m, stack, cells, 2);
    if sealed {
        return Err(Error::InvalidAccess);
    }
    if SIGN <= n {
        return Err(Error::RangeCheck);
    }
    if 255 < b {
        return Err(Error::RangeCheck);
    }
    let most = elements::maximum(m, stack, cells, 2);
    if takes_byte(n, most, b) {
        put_byte_inside(m, stack, cells, 2, n, b as u8);
        return Ok(drop_items(m, stack, cells, 3));
    }
    Err(Error::RangeCheck)
}

// Whether byte b may be put at place n of a string of this maximum: a zero may be put just past its end.
fn takes_byte(n: u32, most: u32, b: u32) -> bool
    ensures { result ≡ (ltb n most || (eqb n most && eqb b 0)) }
{
    n < most || (n == most && b == 0)
}

// Byte q of the string that is item i; 0 past its end.
fn byte_or_zero(m: Machine, stack: &[u32], cells: &[u32], i: usize, q: u32) -> u32
    requires { (i < m.depth) × SomewhereThat (HasString i) m stack.now cells.now }
    ensures { ByteOf i q m stack.now cells.now result }
{
    if elements::maximum(m, stack, cells, i) <= q {
        return 0;
    }
    elements::get_byte(m, stack, cells, i, q) as u32
}

// Byte q of the string that is item i becomes b; past its end nothing changes.
fn put_byte_inside(m: Machine, stack: &[u32], cells: &mut [u32], i: usize, q: u32, b: u8)
    requires { (i < m.depth) × SomewhereThat (HasString i) m stack.now cells.old }
    ensures { MovesHeap (byte_put i q b) m m stack.now stack.now cells.old cells.new }
{
    if q < elements::maximum(m, stack, cells, i) {
        elements::put_byte(m, stack, cells, i, q, b);
    }
}

// The elements of the array on top are put below it, the first one lowest.
fn spread(m: Machine, stack: &mut [u32], cells: &mut [u32], n: usize) -> Machine
    requires { (1 ≤ m.depth) × (2 * (m.depth + n) ≤ length_of stack.old) × SomewhereThat (HasFirst 0 n) m stack.old cells.old }
    ensures { MovesHeap (spread_out n) m result stack.old stack.new cells.old cells.new }
{
    let mut r = m;
    for q in 0..n {
        r = r.push_scalar(stack, TAG_NULL, 0);
        r = r.swap(stack, 0, 1);
        r = elements::copy_element(r, stack, cells, 0, q as u32, 1);
    }
    r
}

// The first n elements of the array that is item i become copies of item from - 1 and the ones above it.
fn store_items(
    m: Machine,
    stack: &[u32],
    cells: &mut [u32],
    i: usize,
    from: usize,
    n: usize,
) -> Machine
    requires { (i < m.depth) × (from ≤ m.depth) × (n ≤ from) × SomewhereThat (HasFirst i n) m stack.now cells.old }
    ensures moves_heap { MovesHeap (items_put i from n) m result stack.now stack.now cells.old cells.new }
    ensures depth_value { result.depth ≡ m.depth }
{
    let mut r = m;
    for q in 0..n {
        r = elements::put_element(r, stack, cells, i, q as u32, from - 1 - q);
    }
    r
}

// The n topmost items go.
fn drop_items(m: Machine, stack: &[u32], cells: &mut [u32], n: usize) -> Machine
    requires { (n ≤ m.depth) × Somewhere m stack.now cells.old }
    ensures moves_heap { MovesHeap (popped n) m result stack.now stack.now cells.old cells.new }
    ensures depth_value { result.depth ≡ m.depth - n }
{
    let mut r = m;
    for _ in 0..n {
        r = r.drop(stack, cells);
    }
    r
}

// How many items are above the topmost mark, where there is one.
fn above_mark(m: Machine, stack: &[u32]) -> Option<usize>
    requires { 2 * m.depth ≤ length_of stack.now }
    ensures inside { IfSome result (λ n. n < m.depth) }
    ensures mark_above { MarkAbove m stack.now result }
{
    for n in 0..m.depth {
        if elements::tag_of(m, stack, n) == TAG_MARK {
            return Some(n);
        }
    }
    None
}
