// getinterval and putinterval. Each does exactly what the definition's operator of its name does and then the definition's test of room, errors and their
// order included. Nothing is changed before the last check.
#![tactic(auto)]

ghost use Rattle.std.specs.Prelude.{◌≡◌, ◌⊎◌, ◌+◌, ◌*◌, ◌^◌, ◌≤◌, ◌<◌, length};
ghost use Rattle.semantics.specs.Text.{bytes};
ghost use Rattle.semantics.specs.Operators.{perform};
ghost use Rattle.machine.specs.Rep.{Somewhere, MovesHeap};
ghost use Rattle.machine.specs.Room.{DoesHeap};
ghost use Rattle.elements.specs.Elements.{ItemTag, ArraySize, SomewhereThat};
ghost use Rattle.interval_operators.specs.Intervals.{ArrayItem, Integers, ItemInteger, CopiesElements, elements_copied, three_dropped, result_left};

use machine::{ITEM_PAYLOAD, Machine, TAG_INTEGER, TAG_PROCEDURE, TAG_STRING};
use semantics::{Error, STACK_WIDTH};
use word::SIGN;

// Ruled out: a new array that is literal where the old one was a procedure, and VMerror where the new object just fits.
pub fn getinterval(m: Machine, stack: &mut [u32], cells: &mut [u32]) -> Result<Machine, Error>
    requires { Somewhere m stack.old cells.old }
    ensures { DoesHeap (perform (bytes "getinterval")) m stack.old stack.new cells.old cells.new result }
{
    m.needs(3)?;
    let tag = elements::tag_of(m, stack, 2);
    if tag < TAG_STRING {
        return Err(Error::TypeCheck);
    }
    let (start, n) = m.two_ints(stack)?;
    if SIGN <= start {
        return Err(Error::RangeCheck);
    }
    if SIGN <= n {
        return Err(Error::RangeCheck);
    }
    if tag == TAG_STRING {
        return get_bytes(m, stack, cells, start, n);
    }
    get_elements(m, stack, cells, tag, start, n)
}

// Ruled out: rangecheck for a negative start where the operands are of two kinds or the target is read only, and bytes after those written that are lost.
pub fn putinterval(m: Machine, stack: &mut [u32], cells: &mut [u32]) -> Result<Machine, Error>
    requires { Somewhere m stack.old cells.old }
    ensures { DoesHeap (perform (bytes "putinterval")) m stack.old stack.new cells.old cells.new result }
{
    m.needs(3)?;
    let into = elements::tag_of(m, stack, 2);
    if into < TAG_STRING {
        return Err(Error::TypeCheck);
    }
    if elements::tag_of(m, stack, 1) != TAG_INTEGER {
        return Err(Error::TypeCheck);
    }
    let from = elements::tag_of(m, stack, 0);
    if from < TAG_STRING {
        return Err(Error::TypeCheck);
    }
    if into == TAG_STRING {
        if from != TAG_STRING {
            return Err(Error::TypeCheck);
        }
        return put_bytes(m, stack, cells);
    }
    if from == TAG_STRING {
        return Err(Error::TypeCheck);
    }
    put_elements(m, stack, cells)
}

// getinterval of a string.
fn get_bytes(
    m: Machine,
    stack: &mut [u32],
    cells: &mut [u32],
    start: u32,
    n: u32,
) -> Result<Machine, Error>
    requires { (3 ≤ m.depth) × (start < 2 ^ 31) × (n < 2 ^ 31) × ItemTag 2 m stack.old 8 × Integers start n m stack.old × Somewhere m stack.old cells.old }
    ensures { DoesHeap (perform (bytes "getinterval")) m stack.old stack.new cells.old cells.new result }
{
    if elements::maximum(m, stack, cells, 2) < start + n {
        return Err(Error::RangeCheck);
    }
    if elements::free_cells(m, cells) < (n + 7) / 8 + 1 {
        return Err(Error::VmError);
    }
    let made = elements::new_string(m, stack, cells, 0, n);
    strings::copy_bytes(made, stack, cells, 0, 0, 2, start, n);
    Ok(leave_result(made, stack, cells))
}

// getinterval of an array of this tag.
fn get_elements(
    m: Machine,
    stack: &mut [u32],
    cells: &mut [u32],
    tag: u32,
    start: u32,
    n: u32,
) -> Result<Machine, Error>
    requires { (3 ≤ m.depth) × (start < 2 ^ 31) × (n < 2 ^ 31) × (9 ≤ tag) × ItemTag 2 m stack.old tag × Integers start n m stack.old × Somewhere m stack.old cells.old }
    ensures { DoesHeap (perform (bytes "getinterval")) m stack.old stack.new cells.old cells.new result }
{
    if elements::size_of(m, stack, cells, 2) < start + n {
        return Err(Error::RangeCheck);
    }
    if elements::free_cells(m, cells) < n + 1 {
        return Err(Error::VmError);
    }
    let made = elements::new_array(m, stack, cells, 0, n);
    let copied = copy_elements(made, stack, cells, 0, 0, 2, start, n);
    let tagged = copied.retag(stack, tag == TAG_PROCEDURE);
    Ok(leave_result(tagged, stack, cells))
}

// putinterval of a string into a string.
fn put_bytes(m: Machine, stack: &mut [u32], cells: &mut [u32]) -> Result<Machine, Error>
    requires { (3 ≤ m.depth) × ItemTag 2 m stack.old 8 × ItemTag 1 m stack.old 1 × ItemTag 0 m stack.old 8 × Somewhere m stack.old cells.old }
    ensures { DoesHeap (perform (bytes "putinterval")) m stack.old stack.new cells.old cells.new result }
{
    let start = integer_at(m, stack, 1);
    if elements::is_sealed(m, stack, cells, 2) {
        return Err(Error::InvalidAccess);
    }
    if SIGN <= start {
        return Err(Error::RangeCheck);
    }
    let n = elements::maximum(m, stack, cells, 0);
    if elements::maximum(m, stack, cells, 2) < start + n {
        return Err(Error::RangeCheck);
    }
    strings::copy_bytes(m, stack, cells, 2, start, 0, 0, n);
    Ok(drop_operands(m, stack, cells))
}

// putinterval of an array into an array.
fn put_elements(m: Machine, stack: &mut [u32], cells: &mut [u32]) -> Result<Machine, Error>
    requires { (3 ≤ m.depth) × ArrayItem 2 m stack.old × ItemTag 1 m stack.old 1 × ArrayItem 0 m stack.old × Somewhere m stack.old cells.old }
    ensures { DoesHeap (perform (bytes "putinterval")) m stack.old stack.new cells.old cells.new result }
{
    let start = integer_at(m, stack, 1);
    if elements::is_sealed(m, stack, cells, 2) {
        return Err(Error::InvalidAccess);
    }
    if SIGN <= start {
        return Err(Error::RangeCheck);
    }
    let n = elements::size_of(m, stack, cells, 0);
    if elements::size_of(m, stack, cells, 2) < start + n {
        return Err(Error::RangeCheck);
    }
    let copied = copy_elements(m, stack, cells, 2, start, 0, 0, n);
    Ok(drop_operands(copied, stack, cells))
}

// n elements of the array that is item `from`, from element start on, go to element `at` and the ones after it of the array that is item `to`, each by way
// of item 1. Both may be one array where no element is overwritten before it is read: they go down, or the last of them is the array's last.
fn copy_elements(
    m: Machine,
    stack: &mut [u32],
    cells: &mut [u32],
    to: usize,
    at: u32,
    from: usize,
    start: u32,
    n: u32,
) -> Machine
    requires places { (to < m.depth) × (from < m.depth) × (2 ≤ m.depth) × (to ≡ 1 → ⊥) × (from ≡ 1 → ⊥) }
    requires copies { ((at ≤ start) ⊎ ArraySize from m stack.old cells.old (start + n)) × SomewhereThat (CopiesElements to at from start n) m stack.old cells.old }
    ensures moves_heap { MovesHeap (elements_copied to at from start n) m result stack.old stack.new cells.old cells.new }
    ensures depth_value { result.depth ≡ m.depth }
{
    let mut r = m;
    for q in 0..n {
        r = elements::copy_element(r, stack, cells, from, start + q, 1);
        r = elements::put_element(r, stack, cells, to, at + q, 1);
    }
    r
}

// Item i, which is an integer.
fn integer_at(m: Machine, stack: &[u32], i: usize) -> u32
    requires { (i < m.depth) × (2 * m.depth ≤ length stack.now) }
    ensures { ItemInteger i m stack.now result }
{
    let k = m.depth - 1 - i;
    stack[STACK_WIDTH * k + ITEM_PAYLOAD]
}

// The three operands go.
fn drop_operands(m: Machine, stack: &[u32], cells: &mut [u32]) -> Machine
    requires { (3 ≤ m.depth) × Somewhere m stack.now cells.old }
    ensures { MovesHeap three_dropped m result stack.now stack.now cells.old cells.new }
{
    let one = m.drop(stack, cells);
    let two = one.drop(stack, cells);
    two.drop(stack, cells)
}

// The topmost item stays, and the two below it go.
fn leave_result(m: Machine, stack: &mut [u32], cells: &mut [u32]) -> Machine
    requires { (3 ≤ m.depth) × Somewhere m stack.old cells.old }
    ensures { MovesHeap result_left m result stack.old stack.new cells.old cells.new }
{
    let turned = m.swap(stack, 0, 2);
    let one = turned.drop(stack, cells);
    one.drop(stack, cells)
}
