// The operators that rearrange the stack, dup, exch, pop, index, copy and roll, and mark, cvx and cvlit, which touch its topmost place alone. Each does
// exactly what the definition's operator of its name does and then the definition's test of room, errors and their order included. Nothing is changed
// before the last check.
#![tactic(auto)]

ghost use Rattle.std.specs.Prelude.{◌≡◌, ◌+◌, ◌*◌, ◌≤◌, ◌<◌, length};
ghost use Rattle.semantics.specs.Text.{bytes};
ghost use Rattle.semantics.specs.Words.{signed};
ghost use Rattle.semantics.specs.StackOperators.{modulo as modulo_of};
ghost use Rattle.semantics.specs.TextOperators.{convert};
ghost use Rattle.semantics.specs.Operators.{perform};
ghost use Rattle.machine.specs.Rep.{Somewhere, MovesStack, MovesHeap};
ghost use Rattle.machine.specs.Room.{DoesStack, DoesHeap};
ghost use Rattle.stack_operators.specs.Rearranged.{doubled, reversed, rolled};

use machine::{Machine, TAG_MARK};
use semantics::{Error, STACK_WIDTH};
use word::{ALL_ONES, SIGN};

// Ruled out: stackoverflow where the stack is empty, and a copy whose object is not counted.
pub fn dup(m: Machine, stack: &mut [u32], cells: &mut [u32]) -> Result<Machine, Error>
    requires { Somewhere m stack.old cells.old }
    ensures { DoesHeap (perform (bytes "dup")) m stack.old stack.new cells.old cells.new result }
{
    m.needs(1)?;
    m.has_room(stack, 1)?;
    Ok(m.push_copy(stack, cells, 0))
}

// Ruled out: stackoverflow on a full stack, and one item that is written twice.
pub fn exch(m: Machine, stack: &mut [u32]) -> Result<Machine, Error>
    requires { 2 * m.depth ≤ length stack.old }
    ensures { DoesStack (perform (bytes "exch")) m stack.old stack.new result }
{
    m.needs(2)?;
    Ok(m.swap(stack, 0, 1))
}

// Ruled out: an item that goes and leaves its object counted, and a depth below nothing.
pub fn pop(m: Machine, stack: &mut [u32], cells: &mut [u32]) -> Result<Machine, Error>
    requires { Somewhere m stack.old cells.old }
    ensures { DoesHeap (perform (bytes "pop")) m stack.old stack.new cells.old cells.new result }
{
    m.needs(1)?;
    Ok(m.drop(stack, cells))
}

// The copy takes the place of the number. Ruled out: item n counted with the number, and stackunderflow for a negative number.
pub fn index(m: Machine, stack: &mut [u32], cells: &mut [u32]) -> Result<Machine, Error>
    requires { Somewhere m stack.old cells.old }
    ensures { DoesHeap (perform (bytes "index")) m stack.old stack.new cells.old cells.new result }
{
    let w = m.one_int(stack)?;
    if SIGN <= w {
        return Err(Error::RangeCheck);
    }
    let n = w as usize;
    m.needs(n + 2)?;
    Ok(m.copy_over(stack, cells, 0, n + 1))
}

// Ruled out: stackoverflow where the copies just fit in place of the number, and copies in the other order.
pub fn copy(m: Machine, stack: &mut [u32], cells: &mut [u32]) -> Result<Machine, Error>
    requires { Somewhere m stack.old cells.old }
    ensures { DoesHeap (perform (bytes "copy")) m stack.old stack.new cells.old cells.new result }
{
    let w = m.one_int(stack)?;
    if SIGN <= w {
        return Err(Error::RangeCheck);
    }
    let n = w as usize;
    m.needs(n + 1)?;
    if stack.len() / STACK_WIDTH < m.depth - 1 + n {
        return Err(Error::StackOverflow);
    }
    let left = m.drop(stack, cells);
    Ok(double(left, stack, cells, n))
}

// The shift counts modulo the number of items, so that each item moves at most twice. Ruled out: items that move down, and a negative shift taken for a
// great one.
pub fn roll(m: Machine, stack: &mut [u32], cells: &mut [u32]) -> Result<Machine, Error>
    requires { Somewhere m stack.old cells.old }
    ensures { DoesHeap (perform (bytes "roll")) m stack.old stack.new cells.old cells.new result }
{
    let (w, shift) = m.two_ints(stack)?;
    if SIGN <= w {
        return Err(Error::RangeCheck);
    }
    let n = w as usize;
    m.needs(n + 2)?;
    let one = m.drop(stack, cells);
    let left = one.drop(stack, cells);
    if w == 0 {
        return Ok(left);
    }
    let k = modulo(shift, w);
    if k == 0 {
        return Ok(left);
    }
    let up = k as usize;
    Ok(exchange(left, stack, up, n - up))
}

// Ruled out: stackoverflow where one item still fits.
pub fn mark(m: Machine, stack: &mut [u32]) -> Result<Machine, Error>
    requires { 2 * m.depth ≤ length stack.old }
    ensures { DoesStack (perform (bytes "mark")) m stack.old stack.new result }
{
    m.has_room(stack, 1)?;
    Ok(m.push_scalar(stack, TAG_MARK, 0))
}

pub fn cvx(m: Machine, stack: &mut [u32]) -> Result<Machine, Error>
    requires { 2 * m.depth ≤ length stack.old }
    ensures { DoesStack (perform (bytes "cvx")) m stack.old stack.new result }
{
    convert(m, stack, true)
}

pub fn cvlit(m: Machine, stack: &mut [u32]) -> Result<Machine, Error>
    requires { 2 * m.depth ≤ length stack.old }
    ensures { DoesStack (perform (bytes "cvlit")) m stack.old stack.new result }
{
    convert(m, stack, false)
}

// Ruled out: a string or an integer that changes.
fn convert(m: Machine, stack: &mut [u32], executable: bool) -> Result<Machine, Error>
    requires { 2 * m.depth ≤ length stack.old }
    ensures { DoesStack (convert executable) m stack.old stack.new result }
{
    m.needs(1)?;
    Ok(m.retag(stack, executable))
}

// The n topmost items are pushed once more, the lowest first: after each push the next one is again the n-th from the top.
fn double(m: Machine, stack: &mut [u32], cells: &mut [u32], n: usize) -> Machine
    requires { (n ≤ m.depth) × (2 * (m.depth + n) ≤ length stack.old) × Somewhere m stack.old cells.old }
    ensures { MovesHeap (doubled n) m result stack.old stack.new cells.old cells.new }
{
    let mut r = m;
    for _ in 0..n {
        r = r.push_copy(stack, cells, n - 1);
    }
    r
}

// The shift, a signed word, modulo n, from 0 up.
fn modulo(shift: u32, n: u32) -> u32
    requires { 0 < n }
    ensures value { result ≡ modulo_of (signed shift) n }
    ensures upper_bound { result < n }
{
    if shift < SIGN {
        shift % n
    } else {
        n - 1 - (ALL_ONES - shift) % n
    }
}

// The upper items, those on top, go below the lower ones: each part is turned over, and then both together.
fn exchange(m: Machine, stack: &mut [u32], upper: usize, lower: usize) -> Machine
    requires { (2 * m.depth ≤ length stack.old) × (upper + lower ≤ m.depth) }
    ensures { MovesStack (rolled (upper + lower) upper) m result stack.old stack.new }
{
    let both = upper + lower;
    let a = reverse(m, stack, 0, upper);
    let b = reverse(a, stack, upper, both);
    reverse(b, stack, 0, both)
}

// The items from lo up to hi, counted from the top, are turned over.
fn reverse(m: Machine, stack: &mut [u32], lo: usize, hi: usize) -> Machine
    requires { (2 * m.depth ≤ length stack.old) × (lo ≤ hi) × (hi ≤ m.depth) }
    ensures moves_stack { MovesStack (reversed lo hi) m result stack.old stack.new }
    ensures depth_value { result.depth ≡ m.depth }
{
    let mut r = m;
    for k in 0..(hi - lo) / 2 {
        r = r.swap(stack, lo + k, hi - 1 - k);
    }
    r
}
