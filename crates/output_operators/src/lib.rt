// The operators that write to the log: print, echo and echostack. Each does exactly what the definition's operator of its name does and then the
// definition's test of room. The text is measured before any of it is written, so that nothing has changed where there is no room for all of it.
#![tactic(auto)]

ghost use Rattle.std.specs.Prelude.{◌≡◌, List, ℕ, ◌+◌, ◌≤◌, ◌<◌, length};
ghost use Rattle.semantics.specs.Text.{bytes};
ghost use Rattle.semantics.specs.Operators.{perform};
ghost use Rattle.elements.specs.Elements.{HasString, SomewhereThat};
ghost use Rattle.strings.specs.Strings.{CurrentSize};
ghost use Rattle.output_operators.specs.Output.{DoesLog, SomewhereLog, CopiesCurrent, FitsLine, LineRoom, WritesLine, feed_of};

use machine::{ITEM_PAYLOAD, Machine, TAG_STRING};
use semantics::{Error, STACK_WIDTH};

// Levels of arrays that are written out.
const LEVELS: u32 = 4;

// Ruled out: the bytes after the first zero written; ioerror where the text fills the log exactly.
pub fn print(m: Machine, stack: &[u32], cells: &mut [u32], log: &mut [u8]) -> Result<Machine, Error>
    requires { (d : List ℕ) × SomewhereLog m stack.now d cells.old log.old }
    ensures { (d : List ℕ) → DoesLog (perform (bytes "print")) m stack.now d cells.old cells.new log.old log.new result }
{
    if m.depth < 1 {
        return Err(Error::StackUnderflow);
    }
    if elements::tag_of(m, stack, 0) != TAG_STRING {
        return Err(Error::TypeCheck);
    }
    let n = strings::current_length(m, stack, cells, 0);
    let room = log.len() - m.written;
    if room < (n as usize) {
        return Err(Error::IoError);
    }
    copy_current(m, stack, cells, log, n);
    let after = m.written + (n as usize);
    let mut r = m.drop(stack, cells);
    r.written = after;
    Ok(r)
}

// Ruled out: the line feed left out of the room; a text cut off where the log ends.
pub fn echo(
    m: Machine,
    stack: &[u32],
    dict: &[u32],
    cells: &mut [u32],
    log: &mut [u8],
) -> Result<Machine, Error>
    requires { SomewhereLog m stack.now dict.now cells.old log.old }
    ensures { DoesLog (perform (bytes "echo")) m stack.now dict.now cells.old cells.new log.old log.new result }
{
    if m.depth < 1 {
        return Err(Error::StackUnderflow);
    }
    let k = m.depth - 1;
    let tag = stack[STACK_WIDTH * k];
    let pay = stack[STACK_WIDTH * k + ITEM_PAYLOAD];
    let room = log.len() - m.written;
    let size = printing::measure(dict, cells, tag, pay, LEVELS, room);
    if room <= size {
        return Err(Error::IoError);
    }
    let after = printing::write(dict, cells, log, m.written, tag, pay, LEVELS);
    log[after] = b'\n';
    let mut r = m.drop(stack, cells);
    r.written = after + 1;
    Ok(r)
}

// The items, the bottom first. Ruled out: the topmost item first; nothing written of an empty stack.
pub fn echostack(
    mut m: Machine,
    stack: &[u32],
    dict: &[u32],
    cells: &[u32],
    log: &mut [u8],
) -> Result<Machine, Error>
    requires { SomewhereLog m stack.now dict.now cells.now log.old }
    ensures { DoesLog (perform (bytes "echostack")) m stack.now dict.now cells.now cells.now log.old log.new result }
{
    let at = m.written;
    let room = log.len() - at;
    if m.depth == 0 {
        if room < 1 {
            return Err(Error::IoError);
        }
        log[at] = b'\n';
        m.written = at + 1;
        return Ok(m);
    }
    if stack_fits(m, stack, dict, cells, room) {
        let after = write_stack(m, stack, dict, cells, log);
        m.written = after;
        return Ok(m);
    }
    Err(Error::IoError)
}

// Whether there is room for the text of all items. Each is followed by a byte, a blank or the line feed.
fn stack_fits(m: Machine, stack: &[u32], dict: &[u32], cells: &[u32], room: usize) -> bool
    requires { (0 < m.depth) × ((l : List ℕ) × SomewhereLog m stack.now dict.now cells.now l) }
    ensures { FitsLine m stack.now dict.now cells.now room result }
{
    let mut sum = 0;
    for i in 0..m.depth {
        let tag = stack[STACK_WIDTH * i];
        let pay = stack[STACK_WIDTH * i + ITEM_PAYLOAD];
        let left = room - sum;
        let k = printing::measure(dict, cells, tag, pay, LEVELS, left);
        if left <= k {
            return false;
        }
        sum = sum + k + 1;
    }
    true
}

// The text of all items goes to the end of what is written.
fn write_stack(m: Machine, stack: &[u32], dict: &[u32], cells: &[u32], log: &mut [u8]) -> usize
    requires { (0 < m.depth) × LineRoom m stack.now dict.now cells.now log.old }
    ensures { WritesLine m stack.now dict.now cells.now log.old log.new result }
{
    let mut next = m.written;
    for i in 0..m.depth {
        let tag = stack[STACK_WIDTH * i];
        let pay = stack[STACK_WIDTH * i + ITEM_PAYLOAD];
        next = printing::write(dict, cells, log, next, tag, pay, LEVELS);
        log[next] = feed(m.depth - (i + 1));
        next = next + 1;
    }
    next
}

// The byte after an item, where so many are left: a blank, or a line feed.
fn feed(left: usize) -> u8
    ensures { result ≡ feed_of left }
{
    if 0 < left {
        return b' ';
    }
    b'\n'
}

// The current bytes of the string that is item 0, n of them, go to the end of what is written.
fn copy_current(m: Machine, stack: &[u32], cells: &[u32], log: &mut [u8], n: u32)
    requires { (0 < m.depth) × SomewhereThat (HasString 0) m stack.now cells.now × CurrentSize 0 m stack.now cells.now n × (m.written + n ≤ length log.old) }
    ensures { CopiesCurrent m stack.now cells.now log.old log.new n }
{
    let at = m.written;
    for q in 0..n {
        let b = elements::get_byte(m, stack, cells, 0, q);
        log[at + (q as usize)] = b;
    }
}
