// Steps on the topmost execution slot in which no operator and no name is executed: a loop's turn, a literal pushed, a procedure that starts, goes on or ends.
// Each does exactly what the definition's step does to that slot, and then the definition's test of room.
#![tactic(auto)]

ghost use Rattle.std.specs.Prelude.{◌≡◌, ◌||◌, cond, eqb, ◌+ℤ◌, ◌+◌, ◌-◌, ◌*◌, ◌≤◌};
ghost use Rattle.machine.specs.Words.{frame_kind, frame_tag, frame_cell, frame_left};
ghost use Rattle.semantics.specs.Words.{signed, in_range};
ghost use Rattle.semantics.specs.Steps.{beyond};
ghost use Rattle.machine.specs.FrameMoves.{Somewhere};
ghost use Rattle.frames.specs.Moves.{SomewhereAll};
ghost use Rattle.heap.specs.Word.{word};
ghost use Rattle.control_operators.specs.Promises.{Represented, DoesFrames};
ghost use Rattle.turns.specs.Turns.{resumed, IsNot, Quiet, DoesTurn, DoesItems};

use frames::{FOR, PAST, REPEAT};
use machine::{FRAME_FINAL, FRAME_INCREMENT, FRAME_NEXT, Machine, TAG_INTEGER};
use semantics::{EXEC_WIDTH, Error};
use word::SIGN;

// The body of `loop` becomes pending once more.
// Ruled out: a loop that goes when its body starts.
pub fn loop_turn(m: Machine, exec: &mut [u32], cells: &mut [u32]) -> Result<Machine, Error>
    requires { (1 ≤ m.frames) × (frame_kind exec.old (m.frames - 1) ≡ 2) × Somewhere m exec.old cells.old }
    ensures { DoesTurn resumed m exec.old exec.new cells.old cells.new result }
{
    m.has_slot(exec)?;
    Ok(frames::pend_body(m, exec, cells))
}

// The body of `repeat` becomes pending if a repetition is left, else the loop goes.
// Ruled out: one repetition too many; a count that does not fall.
pub fn repeat_turn(m: Machine, exec: &mut [u32], cells: &mut [u32]) -> Result<Machine, Error>
    requires { (1 ≤ m.frames) × (frame_kind exec.old (m.frames - 1) ≡ 3) × Somewhere m exec.old cells.old }
    ensures { DoesTurn resumed m exec.old exec.new cells.old cells.new result }
{
    let k = m.frames - 1;
    let n = exec[EXEC_WIDTH * k + FRAME_NEXT];
    if n == 0 {
        return Ok(m.drop_frame(exec, cells));
    }
    m.has_slot(exec)?;
    let spare = exec[EXEC_WIDTH * k + FRAME_INCREMENT];
    frames::reset_top(m, exec, REPEAT, n - 1, spare);
    Ok(frames::pend_body(m, exec, cells))
}

// `for` pushes its number and its body becomes pending, or it goes where the number is beyond the final one or has left 32 bits.
// Ruled out: a loop that ends one late; the number pushed where the body has no slot.
pub fn for_turn(
    m: Machine,
    stack: &mut [u32],
    exec: &mut [u32],
    cells: &mut [u32],
) -> Result<Machine, Error>
    requires { (1 ≤ m.frames) × (4 ≤ frame_kind exec.old (m.frames - 1)) × SomewhereAll m stack.old exec.old cells.old }
    ensures { DoesFrames resumed m stack.old stack.new exec.old exec.new cells.old cells.new result }
{
    let k = m.frames - 1;
    let n = exec[EXEC_WIDTH * k + FRAME_NEXT];
    let increment = exec[EXEC_WIDTH * k + FRAME_INCREMENT];
    if is_over(
        exec[EXEC_WIDTH * k],
        n,
        increment,
        exec[EXEC_WIDTH * k + FRAME_FINAL],
    ) {
        return Ok(m.drop_frame(exec, cells));
    }
    m.has_slot(exec)?;
    m.has_room(stack, 1)?;
    let pushed = m.push_scalar(stack, TAG_INTEGER, n);
    let kind = kind_after(n, increment);
    frames::reset_top(pushed, exec, kind, word::add(n, increment), increment);
    Ok(frames::pend_body(pushed, exec, cells))
}

// A pending literal is pushed, and its slot goes.
// Ruled out: a slot that stays; a literal lost where the stack is full.
pub fn push_top(m: Machine, stack: &mut [u32], exec: &[u32]) -> Result<Machine, Error>
    requires { (1 ≤ m.frames) × (frame_kind exec.now (m.frames - 1) ≡ 0) × Quiet (frame_tag exec.now (m.frames - 1)) × IsNot 10 (frame_tag exec.now (m.frames - 1)) × Represented m stack.old exec.now }
    ensures { DoesItems resumed m stack.old stack.new exec.now result }
{
    m.has_room(stack, 1)?;
    Ok(m.push_pending(stack, exec))
}

// A pending procedure starts to run.
pub fn start(m: Machine, exec: &mut [u32], cells: &[u32]) -> Result<Machine, Error>
    requires { (1 ≤ m.frames) × (frame_kind exec.old (m.frames - 1) ≡ 0) × (frame_tag exec.old (m.frames - 1) ≡ 10) × Somewhere m exec.old cells.now }
    ensures { DoesTurn resumed m exec.old exec.new cells.now cells.now result }
{
    frames::run_top(m, exec, cells);
    Ok(m)
}

// A procedure of which no element is left goes.
pub fn finish(m: Machine, exec: &[u32], cells: &mut [u32]) -> Result<Machine, Error>
    requires { (1 ≤ m.frames) × (frame_kind exec.now (m.frames - 1) ≡ 1) × (frame_left exec.now (m.frames - 1) ≡ 0) × Somewhere m exec.now cells.old }
    ensures { DoesTurn resumed m exec.now exec.now cells.old cells.new result }
{
    Ok(m.drop_frame(exec, cells))
}

// The next element of a running procedure is pushed, and the procedure goes on.
// Ruled out: an element that is skipped or pushed twice; a procedure inside that runs at once.
pub fn push_next(
    m: Machine,
    stack: &mut [u32],
    exec: &mut [u32],
    cells: &mut [u32],
) -> Result<Machine, Error>
    requires { (1 ≤ m.frames) × (frame_kind exec.old (m.frames - 1) ≡ 1) × (1 ≤ frame_left exec.old (m.frames - 1)) × Quiet (word cells.old (frame_cell exec.old (m.frames - 1)) 0) × SomewhereAll m stack.old exec.old cells.old }
    ensures { DoesFrames resumed m stack.old stack.new exec.old exec.new cells.old cells.new result }
{
    m.has_room(stack, 1)?;
    let r = frames::push_element(m, stack, exec, cells);
    frames::advance(r, exec, cells);
    Ok(r)
}

// Whether a `for` of this kind goes.
fn is_over(kind: u32, next: u32, increment: u32, last: u32) -> bool
    ensures { result ≡ (eqb kind 5 || beyond (signed next) (signed increment) (signed last)) }
{
    if kind == PAST {
        return true;
    }
    is_beyond(next, increment, last)
}

// Whether `for` ends: above the final number for an increment of zero or more, below it for a negative one.
fn is_beyond(next: u32, increment: u32, last: u32) -> bool
    ensures { result ≡ beyond (signed next) (signed increment) (signed last) }
{
    if increment < SIGN {
        return word::lt(last, next);
    }
    word::lt(next, last)
}

// The kind of the slot of a `for` that moves on: its sum may leave 32 bits.
// Ruled out: a sum that wraps, and a loop that goes on with it.
pub fn kind_after(next: u32, increment: u32) -> u32
    ensures { result ≡ cond (in_range (signed next +ℤ signed increment)) 4 5 }
{
    if word::sum_fits(next, increment) {
        return FOR;
    }
    PAST
}
