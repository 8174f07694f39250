// eq and ne. Each does exactly what the definition's operator of its name does and then the definition's test of room, errors and their order included.
// Both compare by the two words of each item, and by their bytes where these name two strings.
#![tactic(auto)]

ghost use Rattle.std.specs.Prelude.{◌≡◌, false, ◌≤◌, ◌<◌};
ghost use Rattle.semantics.specs.Operators.{perform};
ghost use Rattle.machine.specs.Rep.{Somewhere, MovesHeap};
ghost use Rattle.machine.specs.Room.{DoesHeap};
ghost use Rattle.machine.specs.Moves.{tag_as};
ghost use Rattle.elements.specs.Elements.{HasString, ByteOf, SomewhereThat};
ghost use Rattle.equality.specs.Comparing.{Compares, HasStrings, SameBytes, answered, name_of, turned_by};

use machine::{
    ITEM_PAYLOAD, Machine, TAG_ARRAY, TAG_BOOLEAN, TAG_EXECUTABLE, TAG_LITERAL, TAG_MARK, TAG_NULL,
    TAG_PROCEDURE, TAG_STRING,
};
use semantics::{Error, STACK_WIDTH};

// eq, or ne where `negated` holds. In one, so that the comparison stands once in the code.
// Ruled out: a literal and an executable name that differ; two strings that are equal only where they are one; an error for operands of two kinds.
pub fn compare(
    m: Machine,
    stack: &mut [u32],
    cells: &mut [u32],
    negated: bool,
) -> Result<Machine, Error>
    requires { Somewhere m stack.old cells.old }
    ensures { DoesHeap (perform (name_of negated)) m stack.old stack.new cells.old cells.new result }
{
    m.needs(2)?;
    let truth = equal(m, stack, cells) != negated;
    Ok(answer(m, stack, cells, truth))
}

// Whether the two topmost items are equal. Of null and mark the payload says nothing.
fn equal(m: Machine, stack: &[u32], cells: &[u32]) -> bool
    requires { (2 ≤ m.depth) × Somewhere m stack.now cells.now }
    ensures { Compares m stack.now cells.now result }
{
    let lower = STACK_WIDTH * (m.depth - 2);
    let upper = STACK_WIDTH * (m.depth - 1);
    let kind = kind_of(stack[lower]);
    if kind != kind_of(stack[upper]) {
        return false;
    }
    if kind == TAG_NULL {
        return true;
    }
    if kind == TAG_MARK {
        return true;
    }
    if stack[lower + ITEM_PAYLOAD] == stack[upper + ITEM_PAYLOAD] {
        return true;
    }
    if kind == TAG_STRING {
        return same_bytes(m, stack, cells);
    }
    false
}

// Whether the strings that are the two topmost items have the same current bytes.
fn same_bytes(m: Machine, stack: &[u32], cells: &[u32]) -> bool
    requires { (2 ≤ m.depth) × SomewhereThat HasStrings m stack.now cells.now }
    ensures { SameBytes m stack.now cells.now result }
{
    let most = elements::maximum(m, stack, cells, 1);
    for q in 0..most {
        let a = byte_or_zero(m, stack, cells, 1, q);
        if a != byte_or_zero(m, stack, cells, 0, q) {
            return false;
        }
        if a == 0 {
            return true;
        }
    }
    byte_or_zero(m, stack, cells, 0, most) == 0
}

// Byte q of the string that is item i; 0 past its maximum, as there are no current bytes there either.
fn byte_or_zero(m: Machine, stack: &[u32], cells: &[u32], i: usize, q: u32) -> u8
    requires { (i < m.depth) × SomewhereThat (HasString i) m stack.now cells.now }
    ensures { ByteOf i q m stack.now cells.now result }
{
    if q < elements::maximum(m, stack, cells, i) {
        return elements::get_byte(m, stack, cells, i, q);
    }
    0
}

// The tag of the literal value: literal or executable is ignored.
fn kind_of(tag: u32) -> u32
    ensures { result ≡ tag_as false tag }
{
    match tag {
        TAG_EXECUTABLE => TAG_LITERAL,
        TAG_PROCEDURE => TAG_ARRAY,
        _ => tag,
    }
}

// The two topmost items give way to a truth value.
fn answer(m: Machine, stack: &mut [u32], cells: &mut [u32], truth: bool) -> Machine
    requires { (2 ≤ m.depth) × Somewhere m stack.old cells.old }
    ensures { MovesHeap (answered truth) m result stack.old stack.new cells.old cells.new }
{
    let one = m.drop(stack, cells);
    let two = one.drop(stack, cells);
    two.push_scalar(stack, TAG_BOOLEAN, truth as u32)
}
