// Loops over the bytes of strings that are items of the stack. `fill_at` takes a string by its header, and shows the world.
#![tactic(auto)]

ghost use Rattle.std.specs.Prelude.{◌+◌, ◌≤◌, ◌<◌, length};
ghost use Rattle.machine.specs.Rep.{MovesHeap};
ghost use Rattle.elements.specs.Elements.{HasString, SomewhereThat};
ghost use Rattle.strings.specs.Strings.{HasBytes, HasRoom, CurrentSize, ReadsBytes, Copies, Fills, FillsAt, FillsString, bytes_copied, Filled, FilledAt};

use machine::{ITEM_PAYLOAD, Machine};
use semantics::STACK_WIDTH;

// The current length of the string that is item i: its bytes before the first zero, or all of them.
// Ruled out: the maximum for the length; a byte read past the maximum.
pub fn current_length(m: Machine, stack: &[u32], cells: &[u32], i: usize) -> u32
    requires { (i < m.depth) × SomewhereThat (HasString i) m stack.now cells.now }
    ensures { CurrentSize i m stack.now cells.now result }
{
    let most = elements::maximum(m, stack, cells, i);
    for q in 0..most {
        if elements::get_byte(m, stack, cells, i, q) == 0 {
            return q;
        }
    }
    most
}

// The first n bytes of the string that is item i go to the front of out; the bytes after them stay.
// Ruled out: a byte left out at the end; another item's bytes; bytes after them changed.
pub fn read_bytes(m: Machine, stack: &[u32], cells: &[u32], i: usize, n: u32, out: &mut [u8])
    requires { (i < m.depth) × (n ≤ length out.old) × SomewhereThat (HasBytes i 0 n) m stack.now cells.now }
    ensures { ReadsBytes i n m stack.now cells.now out.old out.new }
{
    for q in 0..n {
        out[q as usize] = elements::get_byte(m, stack, cells, i, q);
    }
}

// The string with header h gets these bytes; its bytes after them stay.
// Ruled out: the last byte left out; another string written to.
pub fn write_at(cells: &mut [u32], h: u32, contents: &[u8])
    requires { HasRoom h (length contents.now) cells.old }
    ensures { FillsString h contents.now cells.old cells.new }
{
    for (q, &b) in contents.iter().enumerate() {
        elements::put_byte_at(cells, h, q as u32, b);
    }
}

// n bytes of the string that is item `from`, from byte start on, go to byte `at` and the ones after it of the string that is item `to`. Both may be one
// string: the bytes are written in the order in which none is overwritten before it is read.
// Ruled out: bytes that overlap and are written before they are read; the bytes before or after them changed.
pub fn copy_bytes(
    m: Machine,
    stack: &[u32],
    cells: &mut [u32],
    to: usize,
    at: u32,
    from: usize,
    start: u32,
    n: u32,
)
    requires { (to < m.depth) × (from < m.depth) × SomewhereThat (Copies to at from start n) m stack.now cells.old }
    ensures { MovesHeap (bytes_copied to at from start n) m m stack.now stack.now cells.old cells.new }
{
    if at <= start {
        copy_up(m, stack, cells, to, at, from, start, n);
    } else {
        copy_down(m, stack, cells, to, at, from, start, n);
    }
}

// The string that is item i gets the bytes of the string token whose text is at `start`, after the opening quote; its bytes after them stay.
// Ruled out: an escape's bytes written unread; the closing quote written; a byte left out at the end.
pub fn fill(m: Machine, stack: &[u32], cells: &mut [u32], i: usize, script: &[u8], start: usize)
    requires { (i < m.depth) × Fills i m stack.now cells.old script.now start }
    ensures { Filled i m stack.now cells.old cells.new script.now start }
{
    let k = m.depth - 1 - i;
    let h = stack[STACK_WIDTH * k + ITEM_PAYLOAD];
    fill_at(cells, h, script, start);
}

// The string with header h gets the bytes of the string token whose text is at `start`; its bytes after them stay.
// Ruled out: an escape's bytes written unread; another string filled.
pub fn fill_at(cells: &mut [u32], h: u32, script: &[u8], start: usize)
    requires { FillsAt h cells.old script.now start }
    ensures { FilledAt h cells.old cells.new script.now start }
{
    let mut at = start;
    let mut q: u32 = 0;
    while let Some((b, next)) = token::unescape(script, at) {
        elements::put_byte_at(cells, h, q, b);
        q += 1;
        at = next;
    }
}

// The bytes copied, the first one first.
fn copy_up(
    m: Machine,
    stack: &[u32],
    cells: &mut [u32],
    to: usize,
    at: u32,
    from: usize,
    start: u32,
    n: u32,
)
    requires { (at ≤ start) × (to < m.depth) × (from < m.depth) × SomewhereThat (Copies to at from start n) m stack.now cells.old }
    ensures { MovesHeap (bytes_copied to at from start n) m m stack.now stack.now cells.old cells.new }
{
    for j in 0..n {
        let b = elements::get_byte(m, stack, cells, from, start + j);
        elements::put_byte(m, stack, cells, to, at + j, b);
    }
}

// The bytes copied, the last one first.
fn copy_down(
    m: Machine,
    stack: &[u32],
    cells: &mut [u32],
    to: usize,
    at: u32,
    from: usize,
    start: u32,
    n: u32,
)
    requires { (start ≤ at) × (to < m.depth) × (from < m.depth) × SomewhereThat (Copies to at from start n) m stack.now cells.old }
    ensures { MovesHeap (bytes_copied to at from start n) m m stack.now stack.now cells.old cells.new }
{
    for j in (0..n).rev() {
        let b = elements::get_byte(m, stack, cells, from, start + j);
        elements::put_byte(m, stack, cells, to, at + j, b);
    }
}
