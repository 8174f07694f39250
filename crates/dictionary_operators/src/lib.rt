// The operators on the dictionary, def, load, bind and cvn. Each does exactly what the definition's operator of its name does and then the definition's test of
// room, errors and their order included. Nothing is changed before the last check.
#![tactic(auto)]

ghost use Rattle.std.specs.Prelude.{◌≡◌, ◌≤◌, length};
ghost use Rattle.semantics.specs.Sizes.{name_most};
ghost use Rattle.semantics.specs.Text.{bytes};
ghost use Rattle.semantics.specs.Operators.{perform};
ghost use Rattle.dictionary_operators.specs.Promises.{Represented, DoesDictionary};
ghost use Rattle.dictionary_operators.specs.Binding.{HasProcedure, HasElementAt, BindsElement, BindsElements};
ghost use Rattle.dictionary_operators.specs.Interning.{item_named};

use machine::{
    Machine, TAG_EXECUTABLE, TAG_LITERAL, TAG_OPERATOR, TAG_PROCEDURE, TAG_STRING, TAG_UNBOUND,
};
use semantics::{DICTIONARY_WIDTH, Error, NAME_MOST, STACK_WIDTH};

// Ruled out: the operands taken for each other; a binding whose object is counted for the item and not for the name.
pub fn def(m: Machine, stack: &[u32], dict: &mut [u32], cells: &mut [u32]) -> Result<Machine, Error>
    requires { Represented m stack.now dict.old cells.old }
    ensures { DoesDictionary (perform (bytes "def")) m stack.now stack.now dict.old dict.new cells.old cells.new result }
{
    if m.depth < 2 {
        return Err(Error::StackUnderflow);
    }
    let name = machine::item(stack, m.depth - 2);
    if name.tag != TAG_LITERAL {
        return Err(Error::TypeCheck);
    }
    let slot = name.pay as usize;
    let bound = dictionary::bind_item(m, stack, dict, cells, slot, 0);
    let one = bound.drop(stack, cells);
    Ok(one.drop(stack, cells))
}

// Ruled out: an unbound name taken for one that is bound to null; typecheck for an unbound name.
pub fn load(
    m: Machine,
    stack: &mut [u32],
    dict: &[u32],
    cells: &mut [u32],
) -> Result<Machine, Error>
    requires { Represented m stack.old dict.now cells.old }
    ensures { DoesDictionary (perform (bytes "load")) m stack.old stack.new dict.now dict.now cells.old cells.new result }
{
    if m.depth < 1 {
        return Err(Error::StackUnderflow);
    }
    let name = machine::item(stack, m.depth - 1);
    if name.tag != TAG_LITERAL {
        return Err(Error::TypeCheck);
    }
    let slot = name.pay as usize;
    let bound = dictionary::binding(dict, slot);
    if bound.tag == TAG_UNBOUND {
        return Err(Error::Undefined);
    }
    Ok(dictionary::load_binding(m, stack, dict, cells, slot, 0))
}

// Ruled out: a name that is bound to a procedure replaced; the elements of a procedure within the procedure changed.
pub fn bind(m: Machine, stack: &[u32], dict: &[u32], cells: &mut [u32]) -> Result<Machine, Error>
    requires { Represented m stack.now dict.now cells.old }
    ensures { DoesDictionary (perform (bytes "bind")) m stack.now stack.now dict.now dict.now cells.old cells.new result }
{
    if m.depth < 1 {
        return Err(Error::StackUnderflow);
    }
    if stack[STACK_WIDTH * (m.depth - 1)] != TAG_PROCEDURE {
        return Err(Error::TypeCheck);
    }
    Ok(bind_elements(m, stack, dict, cells))
}

// Ruled out: a name of 32 bytes; the bytes after the first zero taken into the name; a slot taken for a name that has one.
pub fn cvn(
    m: Machine,
    stack: &mut [u32],
    dict: &mut [u32],
    cells: &mut [u32],
) -> Result<Machine, Error>
    requires { Represented m stack.old dict.old cells.old }
    ensures { DoesDictionary (perform (bytes "cvn")) m stack.old stack.new dict.old dict.new cells.old cells.new result }
{
    if m.depth < 1 {
        return Err(Error::StackUnderflow);
    }
    if stack[STACK_WIDTH * (m.depth - 1)] != TAG_STRING {
        return Err(Error::TypeCheck);
    }
    let size = strings::current_length(m, stack, cells, 0);
    if NAME_MOST < size as usize {
        return Err(Error::LimitCheck);
    }
    let mut name = [0u8; NAME_MOST];
    strings::read_bytes(m, stack, cells, 0, size, &mut name);
    name_item(m, stack, dict, cells, &name[0..size as usize])
}

// Item 0 gives way to the literal name of these bytes, which takes a slot where it has none.
fn name_item(
    m: Machine,
    stack: &mut [u32],
    dict: &mut [u32],
    cells: &mut [u32],
    name: &[u8],
) -> Result<Machine, Error>
    requires { (1 ≤ m.depth) × (length name.now ≤ name_most) × Represented m stack.old dict.old cells.old }
    ensures { DoesDictionary (item_named name.now) m stack.old stack.new dict.old dict.new cells.old cells.new result }
{
    if let Some(slot) = dictionary::find(m, dict, name) {
        return Ok(dictionary::put_name(m, stack, cells, slot as u32, 0));
    }
    if dict.len() < DICTIONARY_WIDTH * m.names + DICTIONARY_WIDTH {
        return Err(Error::LimitCheck);
    }
    let r = dictionary::add(m, dict, name);
    Ok(dictionary::put_name(r, stack, cells, m.names as u32, 0))
}

// Each element of the procedure that is item 0 is bound.
fn bind_elements(m: Machine, stack: &[u32], dict: &[u32], cells: &mut [u32]) -> Machine
    requires { (1 ≤ m.depth) × HasProcedure m stack.now dict.now cells.old }
    ensures { BindsElements m result stack.now dict.now cells.old cells.new }
{
    let n = elements::size_of(m, stack, cells, 0);
    let mut r = m;
    for q in 0..n {
        r = bind_element(r, stack, dict, cells, q);
    }
    r
}

// Element q of the procedure that is item 0, where it is an executable name that is bound to an operator, becomes the operator.
fn bind_element(mut m: Machine, stack: &[u32], dict: &[u32], cells: &mut [u32], q: u32) -> Machine
    requires { (1 ≤ m.depth) × HasElementAt q m stack.now dict.now cells.old }
    ensures binds_element { BindsElement q m result stack.now dict.now cells.old cells.new }
    ensures depth_value { result.depth ≡ m.depth }
{
    let h = machine::item(stack, m.depth - 1).pay;
    let c = heap::seek(cells, h, q);
    let name = heap::value_of(cells, c);
    if name.tag != TAG_EXECUTABLE {
        return m;
    }
    let slot = name.pay as usize;
    let bound = dictionary::binding(dict, slot);
    if bound.tag != TAG_OPERATOR {
        return m;
    }
    let lists = m.lists;
    let left = heap::assign(lists, cells, c, bound);
    m.lists = left;
    m
}
