// One step on the topmost execution slot: what is pending is executed, a procedure goes on, a loop turns. It does exactly what the definition's step does to
// that slot, and then the definition's test of room; where it fails, no word has changed.
#![tactic(auto)]

ghost use Rattle.std.specs.Prelude.{◌≡◌, List, ℕ, ◌+◌, ◌-◌, ◌*◌, ◌≤◌};
ghost use Rattle.machine.specs.Words.{frame_kind, frame_tag, frame_cell, frame_left};
ghost use Rattle.heap.specs.Word.{word};
ghost use Rattle.machine.specs.FrameMoves.{Somewhere};
ghost use Rattle.frames.specs.Moves.{SomewhereAll};
ghost use Rattle.taking.specs.Promises.{Bindings, DoesBinding};
ghost use Rattle.operators.specs.Titles.{Everywhere, DoesAll};
ghost use Rattle.control_operators.specs.Promises.{DoesFrames};
ghost use Rattle.turns.specs.Turns.{resumed};
ghost use Rattle.acting.specs.Nexts.{NextIs, Infrequent};

use frames::{LOOP, PENDING, REPEAT, RUNNING};
use machine::{
    FRAME_CELL, FRAME_LEFT, FRAME_PAYLOAD, FRAME_TAG, Machine, TAG_EXECUTABLE, TAG_OPERATOR,
    TAG_PROCEDURE,
};
use operators::RARE;
use semantics::{EXEC_WIDTH, Error};

// The topmost slot acts.
// Ruled out: a slot that acts twice; an operator's operands gone where it fails.
// In the loop of steps a call of its own would cost more than most operators.
#[inline(always)]
pub fn act(
    m: Machine,
    stack: &mut [u32],
    exec: &mut [u32],
    dict: &mut [u32],
    cells: &mut [u32],
    log: &mut [u8],
) -> Result<Machine, Error>
    requires { (1 ≤ m.frames) × Everywhere m stack.old exec.old dict.old cells.old log.old }
    ensures { DoesAll resumed m stack.old stack.new exec.old exec.new dict.old dict.new cells.old cells.new log.old log.new result }
{
    let k = m.frames - 1;
    let kind = exec[EXEC_WIDTH * k];
    let c = exec[EXEC_WIDTH * k + FRAME_CELL];
    let left = exec[EXEC_WIDTH * k + FRAME_LEFT];
    match next_frequent(m, exec, cells) {
        Some((number, after)) => {
            match operators::frequent(number, after, stack, exec, dict, cells) {
                Ok(r) => Ok(r),
                // a procedure that has moved on is put back
                Err(e) => {
                    frames::reset_top(m, exec, kind, c, left);
                    Err(e)
                }
            }
        }
        None => other(m, stack, exec, dict, cells, log),
    }
}

// The operator that the topmost slot executes, if it is one of the frequent, with the state in which it does: its slot has gone, or the procedure has moved on.
fn next_frequent(m: Machine, exec: &mut [u32], cells: &[u32]) -> Option<(u32, Machine)>
    requires { (1 ≤ m.frames) × Somewhere m exec.old cells.now }
    ensures { NextIs m exec.old exec.new cells.now result }
{
    let k = m.frames - 1;
    let kind = exec[EXEC_WIDTH * k];
    if kind == PENDING {
        return frequent_pending(m, exec);
    }
    if kind == RUNNING {
        return frequent_element(m, exec, cells);
    }
    None
}

// One that is pending.
fn frequent_pending(m: Machine, exec: &[u32]) -> Option<(u32, Machine)>
    requires { (1 ≤ m.frames) × (frame_kind exec.now (m.frames - 1) ≡ 0) × ((c : List ℕ) × Somewhere m exec.now c) }
    ensures { (c : List ℕ) → NextIs m exec.now exec.now c result }
{
    let k = m.frames - 1;
    let number = exec[EXEC_WIDTH * k + FRAME_PAYLOAD];
    if exec[EXEC_WIDTH * k + FRAME_TAG] != TAG_OPERATOR {
        return None;
    }
    if RARE <= number {
        return None;
    }
    Some((number, m.forget_frame()))
}

// One that is the next element of the running procedure, which moves on.
fn frequent_element(m: Machine, exec: &mut [u32], cells: &[u32]) -> Option<(u32, Machine)>
    requires { (1 ≤ m.frames) × (frame_kind exec.old (m.frames - 1) ≡ 1) × Somewhere m exec.old cells.now }
    ensures { NextIs m exec.old exec.new cells.now result }
{
    let k = m.frames - 1;
    let c = exec[EXEC_WIDTH * k + FRAME_CELL];
    let left = exec[EXEC_WIDTH * k + FRAME_LEFT];
    if left == 0 {
        return None;
    }
    if heap::get(cells, c, 0) != TAG_OPERATOR {
        return None;
    }
    let number = heap::get(cells, c, 1);
    if RARE <= number {
        return None;
    }
    frames::advance(m, exec, cells);
    Some((number, m))
}

// The slot acts otherwise.
fn other(
    m: Machine,
    stack: &mut [u32],
    exec: &mut [u32],
    dict: &mut [u32],
    cells: &mut [u32],
    log: &mut [u8],
) -> Result<Machine, Error>
    requires { (1 ≤ m.frames) × Infrequent m exec.old cells.old × Everywhere m stack.old exec.old dict.old cells.old log.old }
    ensures { DoesAll resumed m stack.old stack.new exec.old exec.new dict.old dict.new cells.old cells.new log.old log.new result }
{
    let k = m.frames - 1;
    let kind = exec[EXEC_WIDTH * k];
    if kind == PENDING {
        return pending(m, stack, exec, dict, cells, log);
    }
    if kind == RUNNING {
        return running(m, stack, exec, dict, cells, log);
    }
    looping(m, stack, exec, cells)
}

// The pending object is executed.
fn pending(
    m: Machine,
    stack: &mut [u32],
    exec: &mut [u32],
    dict: &mut [u32],
    cells: &mut [u32],
    log: &mut [u8],
) -> Result<Machine, Error>
    requires { (1 ≤ m.frames) × (frame_kind exec.old (m.frames - 1) ≡ 0) × Infrequent m exec.old cells.old × Everywhere m stack.old exec.old dict.old cells.old log.old }
    ensures { DoesAll resumed m stack.old stack.new exec.old exec.new dict.old dict.new cells.old cells.new log.old log.new result }
{
    let k = m.frames - 1;
    let tag = exec[EXEC_WIDTH * k + FRAME_TAG];
    let pay = exec[EXEC_WIDTH * k + FRAME_PAYLOAD];
    if tag == TAG_OPERATOR {
        let left = m.forget_frame();
        return operators::settled(operators::rare(pay, left, stack, exec, dict, cells, log));
    }
    if tag == TAG_EXECUTABLE {
        return name_pending(m, exec, dict, cells);
    }
    if tag == TAG_PROCEDURE {
        return turns::start(m, exec, cells);
    }
    turns::push_top(m, stack, exec)
}

// The pending name's binding takes its place.
fn name_pending(
    m: Machine,
    exec: &mut [u32],
    dict: &[u32],
    cells: &mut [u32],
) -> Result<Machine, Error>
    requires { (1 ≤ m.frames) × (frame_kind exec.old (m.frames - 1) ≡ 0) × (frame_tag exec.old (m.frames - 1) ≡ 6) × Bindings m exec.old dict.now cells.old }
    ensures { DoesBinding resumed m exec.old exec.new dict.now cells.old cells.new result }
{
    let k = m.frames - 1;
    let slot = exec[EXEC_WIDTH * k + FRAME_PAYLOAD] as usize;
    let left = m.forget_frame();
    taking::take_name(left, exec, dict, cells, slot)
}

// The procedure goes on.
fn running(
    m: Machine,
    stack: &mut [u32],
    exec: &mut [u32],
    dict: &mut [u32],
    cells: &mut [u32],
    log: &mut [u8],
) -> Result<Machine, Error>
    requires { (1 ≤ m.frames) × (frame_kind exec.old (m.frames - 1) ≡ 1) × Infrequent m exec.old cells.old × Everywhere m stack.old exec.old dict.old cells.old log.old }
    ensures { DoesAll resumed m stack.old stack.new exec.old exec.new dict.old dict.new cells.old cells.new log.old log.new result }
{
    let k = m.frames - 1;
    let c = exec[EXEC_WIDTH * k + FRAME_CELL];
    let left = exec[EXEC_WIDTH * k + FRAME_LEFT];
    if left == 0 {
        return turns::finish(m, exec, cells);
    }
    let tag = heap::get(cells, c, 0);
    if tag == TAG_OPERATOR {
        return perform_element(m, stack, exec, dict, cells, log);
    }
    if tag == TAG_EXECUTABLE {
        return name_element(m, exec, dict, cells);
    }
    turns::push_next(m, stack, exec, cells)
}

// The operator that is the next element is executed. The procedure has moved on before it acts, and is put back if it fails.
fn perform_element(
    m: Machine,
    stack: &mut [u32],
    exec: &mut [u32],
    dict: &mut [u32],
    cells: &mut [u32],
    log: &mut [u8],
) -> Result<Machine, Error>
    requires { (1 ≤ m.frames) × (frame_kind exec.old (m.frames - 1) ≡ 1) × (1 ≤ frame_left exec.old (m.frames - 1)) × (word cells.old (frame_cell exec.old (m.frames - 1)) 0 ≡ 4) × (42 ≤ word cells.old (frame_cell exec.old (m.frames - 1)) 1) × Everywhere m stack.old exec.old dict.old cells.old log.old }
    ensures { DoesAll resumed m stack.old stack.new exec.old exec.new dict.old dict.new cells.old cells.new log.old log.new result }
{
    let k = m.frames - 1;
    let c = exec[EXEC_WIDTH * k + FRAME_CELL];
    let left = exec[EXEC_WIDTH * k + FRAME_LEFT];
    let number = heap::get(cells, c, 1);
    frames::advance(m, exec, cells);
    // lent on is a copy, so that the compiler can keep m itself in registers
    let whole = m;
    match operators::rare(number, whole, stack, exec, dict, cells, log) {
        Ok(r) => Ok(r),
        Err(e) => {
            frames::reset_top(m, exec, RUNNING, c, left);
            Err(e)
        }
    }
}

// The same of an executable name.
fn name_element(
    m: Machine,
    exec: &mut [u32],
    dict: &[u32],
    cells: &mut [u32],
) -> Result<Machine, Error>
    requires { (1 ≤ m.frames) × (frame_kind exec.old (m.frames - 1) ≡ 1) × (1 ≤ frame_left exec.old (m.frames - 1)) × (word cells.old (frame_cell exec.old (m.frames - 1)) 0 ≡ 6) × Bindings m exec.old dict.now cells.old }
    ensures { DoesBinding resumed m exec.old exec.new dict.now cells.old cells.new result }
{
    let k = m.frames - 1;
    let c = exec[EXEC_WIDTH * k + FRAME_CELL];
    let left = exec[EXEC_WIDTH * k + FRAME_LEFT];
    let slot = heap::get(cells, c, 1);
    frames::advance(m, exec, cells);
    match taking::take_name(m, exec, dict, cells, slot as usize) {
        Ok(r) => Ok(r),
        Err(e) => {
            frames::reset_top(m, exec, RUNNING, c, left);
            Err(e)
        }
    }
}

// A loop turns.
fn looping(
    m: Machine,
    stack: &mut [u32],
    exec: &mut [u32],
    cells: &mut [u32],
) -> Result<Machine, Error>
    requires { (1 ≤ m.frames) × (2 ≤ frame_kind exec.old (m.frames - 1)) × SomewhereAll m stack.old exec.old cells.old }
    ensures { DoesFrames resumed m stack.old stack.new exec.old exec.new cells.old cells.new result }
{
    let k = m.frames - 1;
    let kind = exec[EXEC_WIDTH * k];
    if kind == LOOP {
        return turns::loop_turn(m, exec, cells);
    }
    if kind == REPEAT {
        return turns::repeat_turn(m, exec, cells);
    }
    turns::for_turn(m, stack, exec, cells)
}
