// The operators on the flow of control. Each does exactly what the definition's operator of its name does, with the test of room after it, errors and
// their order included; where it fails, no word has changed.
#![tactic(auto)]

ghost use Rattle.std.specs.Prelude.{◌≡◌, ◌+◌, ◌-◌, ◌*◌, ◌≤◌, ◌<◌, length, IfSome};
ghost use Rattle.semantics.specs.Text.{bytes};
ghost use Rattle.semantics.specs.Operators.{perform};
ghost use Rattle.control_operators.specs.Promises.{Represented, DoesState, DoesSlots, DoesCells, DoesFrames, Forgets, FindsLoop, cut_by};
ghost use Rattle.machine.specs.FrameMoves.{Somewhere, MovesFrames};
ghost use Rattle.frames.specs.Moves.{SomewhereAll};

use frames::{FOR, LOOP, REPEAT};
use machine::{ITEM_PAYLOAD, Machine, TAG_BOOLEAN};
use semantics::{EXEC_WIDTH, Error, STACK_WIDTH};
use word::SIGN;

pub fn exec_(m: Machine, stack: &[u32], exec: &mut [u32]) -> Result<Machine, Error>
    requires { Represented m stack.now exec.old }
    ensures { DoesSlots (perform (bytes "exec")) m stack.now exec.old exec.new result }
{
    m.needs(1)?;
    m.has_slot(exec)?;
    Ok(frames::pend_top(m, stack, exec))
}

pub fn loop_(m: Machine, stack: &[u32], exec: &mut [u32]) -> Result<Machine, Error>
    requires { Represented m stack.now exec.old }
    ensures { DoesSlots (perform (bytes "loop")) m stack.now exec.old exec.new result }
{
    m.needs(1)?;
    m.has_slot(exec)?;
    Ok(frames::enter_loop(m, stack, exec, LOOP, 0, 0, 0))
}

// Ruled out: a negative count that repeats; a count that stays on the stack.
pub fn repeat_(m: Machine, stack: &[u32], exec: &mut [u32]) -> Result<Machine, Error>
    requires { Represented m stack.now exec.old }
    ensures { DoesSlots (perform (bytes "repeat")) m stack.now exec.old exec.new result }
{
    m.needs(2)?;
    let n = m.int_at(stack, 1)?;
    if SIGN <= n {
        return Err(Error::RangeCheck);
    }
    m.has_slot(exec)?;
    let r = frames::enter_loop(m, stack, exec, REPEAT, n, 0, 0);
    Ok(forget(r, 1))
}

pub fn for_(m: Machine, stack: &[u32], exec: &mut [u32]) -> Result<Machine, Error>
    requires { Represented m stack.now exec.old }
    ensures { DoesSlots (perform (bytes "for")) m stack.now exec.old exec.new result }
{
    m.needs(4)?;
    let initial = m.int_at(stack, 3)?;
    let increment = m.int_at(stack, 2)?;
    let last = m.int_at(stack, 1)?;
    m.has_slot(exec)?;
    let r = frames::enter_loop(m, stack, exec, FOR, initial, increment, last);
    Ok(forget(r, 3))
}

// Ruled out: a body that is kept where the test is false; execstackoverflow where nothing becomes pending.
pub fn if_(m: Machine, stack: &[u32], exec: &mut [u32], cells: &mut [u32]) -> Result<Machine, Error>
    requires { SomewhereAll m stack.now exec.old cells.old }
    ensures { DoesFrames (perform (bytes "if")) m stack.now stack.now exec.old exec.new cells.old cells.new result }
{
    m.needs(2)?;
    let i = STACK_WIDTH * (m.depth - 2);
    if stack[i] != TAG_BOOLEAN {
        return Err(Error::TypeCheck);
    }
    if stack[i + ITEM_PAYLOAD] == 0 {
        let r = m.drop(stack, cells);
        return Ok(forget(r, 1));
    }
    m.has_slot(exec)?;
    let r = frames::pend_top(m, stack, exec);
    Ok(forget(r, 1))
}

pub fn ifelse(
    m: Machine,
    stack: &[u32],
    exec: &mut [u32],
    cells: &mut [u32],
) -> Result<Machine, Error>
    requires { SomewhereAll m stack.now exec.old cells.old }
    ensures { DoesFrames (perform (bytes "ifelse")) m stack.now stack.now exec.old exec.new cells.old cells.new result }
{
    m.needs(3)?;
    let i = STACK_WIDTH * (m.depth - 3);
    if stack[i] != TAG_BOOLEAN {
        return Err(Error::TypeCheck);
    }
    m.has_slot(exec)?;
    if stack[i + ITEM_PAYLOAD] == 0 {
        let p = frames::pend_top(m, stack, exec);
        let r = p.drop(stack, cells);
        return Ok(forget(r, 1));
    }
    let p = m.drop(stack, cells);
    let r = frames::pend_top(p, stack, exec);
    Ok(forget(r, 1))
}

// Ruled out: slots that go where there is no loop; a loop that stays.
pub fn exit(m: Machine, exec: &[u32], cells: &mut [u32]) -> Result<Machine, Error>
    requires { Somewhere m exec.now cells.old }
    ensures { DoesCells (perform (bytes "exit")) m exec.now cells.old cells.new result }
{
    match find_loop(m, exec) {
        None => stop(m),
        Some(k) => Ok(drop_to(m, exec, cells, k)),
    }
}

pub fn continue_(m: Machine, exec: &[u32], cells: &mut [u32]) -> Result<Machine, Error>
    requires { Somewhere m exec.now cells.old }
    ensures { DoesCells (perform (bytes "continue")) m exec.now cells.old cells.new result }
{
    match find_loop(m, exec) {
        None => stop(m),
        Some(k) => Ok(drop_to(m, exec, cells, k + 1)),
    }
}

pub fn stop(m: Machine) -> Result<Machine, Error>
    ensures { DoesState (perform (bytes "stop")) m result }
{
    Ok(Machine { stopped: true, ..m })
}

// The topmost n items, which name no object, go.
fn forget(mut m: Machine, n: usize) -> Machine
    requires { n ≤ m.depth }
    ensures { Forgets n m result }
{
    m.depth = m.depth - n;
    m
}

// The place of the innermost loop's slot, counted from the bottom, where there is one.
fn find_loop(m: Machine, exec: &[u32]) -> Option<usize>
    requires { 8 * m.frames ≤ length exec.now }
    ensures inside { IfSome result (λ k. k < m.frames) }
    ensures finds { FindsLoop m exec.now result }
{
    for k in (0..m.frames).rev() {
        if LOOP <= exec[EXEC_WIDTH * k] {
            return Some(k);
        }
    }
    None
}

// Slots go until k are left.
fn drop_to(m: Machine, exec: &[u32], cells: &mut [u32], k: usize) -> Machine
    requires { (k ≤ m.frames) × Somewhere m exec.now cells.old }
    ensures { MovesFrames (cut_by (m.frames - k)) m result exec.now exec.now cells.old cells.new }
{
    let mut r = m;
    for _ in k..m.frames {
        r = r.drop_frame(exec, cells);
    }
    r
}
