// The operators on errors: onerror, errorname and command. Each does exactly what the definition's operator of its name does and then the definition's test of
// room, errors and their order included. Nothing is changed before the last check.
#![tactic(auto)]

ghost use Rattle.semantics.specs.Text.{bytes};
ghost use Rattle.semantics.specs.Operators.{perform};
ghost use Rattle.dictionary_operators.specs.Promises.{Represented, DoesDictionary};
ghost use Rattle.error_operators.specs.Noting.{NotedStack, PushesNoted};

use machine::{ITEM_PAYLOAD, LATEST_COMMAND, LATEST_ERROR, Machine, TAG_LITERAL, TAG_NULL};
use semantics::{Error, STACK_WIDTH};

// Ruled out: a name that is no error's taken; the operands left on the stack, or the object let go with them.
pub fn onerror(
    m: Machine,
    stack: &[u32],
    dict: &mut [u32],
    cells: &mut [u32],
) -> Result<Machine, Error>
    requires { Represented m stack.now dict.old cells.old }
    ensures { DoesDictionary (perform (bytes "onerror")) m stack.now stack.now dict.old dict.new cells.old cells.new result }
{
    if m.depth < 2 {
        return Err(Error::StackUnderflow);
    }
    let i = STACK_WIDTH * (m.depth - 2);
    if stack[i] != TAG_LITERAL {
        return Err(Error::TypeCheck);
    }
    let slot = stack[i + ITEM_PAYLOAD];
    let Some(row) = handlers::row_named(dict, slot as usize) else {
        return Err(Error::RangeCheck);
    };
    let bound = handlers::bind_handler(m, stack, dict, cells, row, slot, 0);
    let one = bound.drop(stack, cells);
    Ok(one.drop(stack, cells))
}

// Ruled out: the name of the command; an executable name.
pub fn errorname(
    m: Machine,
    stack: &mut [u32],
    dict: &[u32],
    cells: &mut [u32],
) -> Result<Machine, Error>
    requires { Represented m stack.old dict.now cells.old }
    ensures { DoesDictionary (perform (bytes "errorname")) m stack.old stack.new dict.now dict.now cells.old cells.new result }
{
    push_noted(m, stack, cells, dict[LATEST_ERROR])
}

// Ruled out: the name of the error; stackoverflow where one item still fits.
pub fn command(
    m: Machine,
    stack: &mut [u32],
    dict: &[u32],
    cells: &mut [u32],
) -> Result<Machine, Error>
    requires { Represented m stack.old dict.now cells.old }
    ensures { DoesDictionary (perform (bytes "command")) m stack.old stack.new dict.now dict.now cells.old cells.new result }
{
    push_noted(m, stack, cells, dict[LATEST_COMMAND])
}

// A stored name is pushed as a literal name, by its word: null where the word is 0, else the name whose slot is one less.
fn push_noted(m: Machine, stack: &mut [u32], cells: &mut [u32], word: u32) -> Result<Machine, Error>
    requires { NotedStack word m stack.old cells.old }
    ensures { PushesNoted word m stack.old stack.new cells.old cells.new result }
{
    if stack.len() < STACK_WIDTH * m.depth + STACK_WIDTH {
        return Err(Error::StackOverflow);
    }
    let deeper = m.push_scalar(stack, TAG_NULL, 0);
    if word == 0 {
        return Ok(deeper);
    }
    Ok(dictionary::put_name(deeper, stack, cells, word - 1, 0))
}
