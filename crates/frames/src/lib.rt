// What moves values between the stack and the execution stack. Each function keeps `Rep`, and does to the machine of the definition what its contract
// names.
#![tactic(auto)]

ghost use Rattle.std.specs.Prelude.{◌≡◌, ◌+◌, ◌*◌, ◌-◌, ◌≤◌, length};
ghost use Rattle.machine.specs.Words.{frame_kind, frame_tag, frame_cell, frame_left, frame_final};
ghost use Rattle.machine.specs.FrameMoves.{Somewhere, MovesFrames};
ghost use Rattle.frames.specs.Moves.{Enters, Resets, SomewhereAll, HeldFrames, Pends, Starts, Advances, PushesElement, body_pended, reset_words, Turned};

use heap::Value;
use machine::{FRAME_CELL, FRAME_FINAL, FRAME_LEFT, FRAME_PAYLOAD, Machine, NULL};
use semantics::EXEC_WIDTH;

// Kinds of execution slots.
pub const PENDING: u32 = 0;

pub const RUNNING: u32 = 1;

pub const LOOP: u32 = 2;

pub const REPEAT: u32 = 3;

pub const FOR: u32 = 4;

// A `for` whose next number has left 32 bits, and which is over.
pub const PAST: u32 = 5;

// The topmost item becomes pending.
pub fn pend_top(mut m: Machine, stack: &[u32], exec: &mut [u32]) -> Machine
    requires { (1 ≤ m.depth) × (2 * m.depth ≤ length stack.now) × (8 * m.frames + 8 ≤ length exec.old) }
    ensures enters { Enters 0 (frame_cell exec.old m.frames) (frame_left exec.old m.frames) (frame_final exec.old m.frames) m result stack.now exec.old exec.new }
    ensures depth_value { (result.depth ≡ m.depth - 1) × (result.frames ≡ m.frames + 1) }
{
    let k = m.depth - 1;
    let n = m.frames;
    let value = machine::item(stack, k);
    exec[EXEC_WIDTH * n] = PENDING;
    machine::set_frame_value(exec, n, value);
    m.depth = k;
    m.frames = n + 1;
    m
}

// The topmost item becomes the body of a loop of this kind, with its three numbers.
pub fn enter_loop(
    mut m: Machine,
    stack: &[u32],
    exec: &mut [u32],
    kind: u32,
    a: u32,
    b: u32,
    c: u32,
) -> Machine
    requires { (1 ≤ m.depth) × (2 * m.depth ≤ length stack.now) × (8 * m.frames + 8 ≤ length exec.old) }
    ensures enters { Enters kind a b c m result stack.now exec.old exec.new }
    ensures depth_value { (result.depth ≡ m.depth - 1) × (result.frames ≡ m.frames + 1) }
{
    let k = m.depth - 1;
    let n = m.frames;
    let value = machine::item(stack, k);
    exec[EXEC_WIDTH * n] = kind;
    machine::set_frame_value(exec, n, value);
    exec[EXEC_WIDTH * n + FRAME_CELL] = a;
    exec[EXEC_WIDTH * n + FRAME_LEFT] = b;
    exec[EXEC_WIDTH * n + FRAME_FINAL] = c;
    m.depth = k;
    m.frames = n + 1;
    m
}

// A copy of the topmost slot's value becomes pending: a loop's body.
pub fn pend_body(m: Machine, exec: &mut [u32], cells: &mut [u32]) -> Machine
    requires { (1 ≤ m.frames) × (8 * m.frames + 8 ≤ length exec.old) × Somewhere m exec.old cells.old }
    ensures moves_frames { MovesFrames body_pended m result exec.old exec.new cells.old cells.new }
    ensures depth_value { (result.depth ≡ m.depth) × (result.frames ≡ m.frames + 1) }
{
    let value = machine::frame_value(exec, m.frames - 1);
    pend(m, exec, cells, value)
}

// A copy of a value that some place holds becomes pending.
// Ruled out: an object that is freed while a slot still names it; the slot below written over.
#[inline(always)]
pub fn pend(mut m: Machine, exec: &mut [u32], cells: &mut [u32], value: Value) -> Machine
    requires { (8 * m.frames + 8 ≤ length exec.old) × HeldFrames value.tag value.pay m exec.old cells.old }
    ensures pends { Pends value.tag value.pay m result exec.old exec.new cells.old cells.new }
    ensures depth_value { (result.depth ≡ m.depth) × (result.frames ≡ m.frames + 1) }
{
    let n = m.frames;
    let lists = m.lists;
    let counted = machine::recount(lists, cells, NULL, value);
    exec[EXEC_WIDTH * n] = PENDING;
    machine::set_frame_value(exec, n, value);
    m.frames = n + 1;
    m.lists = counted;
    m
}

// The topmost slot takes this kind and these numbers.
pub fn reset_top(m: Machine, exec: &mut [u32], kind: u32, a: u32, b: u32)
    requires { (1 ≤ m.frames) × (8 * m.frames ≤ length exec.old) }
    ensures resets { Resets kind a b m exec.old exec.new }
    ensures words { exec.new ≡ reset_words kind a b m exec.old }
{
    let k = m.frames - 1;
    exec[EXEC_WIDTH * k] = kind;
    exec[EXEC_WIDTH * k + FRAME_CELL] = a;
    exec[EXEC_WIDTH * k + FRAME_LEFT] = b;
}

// The procedure in the topmost slot starts to run: its next element is the first, and all are left.
pub fn run_top(m: Machine, exec: &mut [u32], cells: &[u32])
    requires { (1 ≤ m.frames) × (frame_tag exec.old (m.frames - 1) ≡ 10) × Somewhere m exec.old cells.now }
    ensures { Starts m exec.old exec.new cells.now }
{
    let k = m.frames - 1;
    let h = exec[EXEC_WIDTH * k + FRAME_PAYLOAD];
    let n = heap::size(cells, h);
    if n == 0 {
        reset_top(m, exec, RUNNING, 0, 0);
    } else {
        let first = heap::seek(cells, h, 0);
        reset_top(m, exec, RUNNING, first, n);
    }
}

// The procedure that runs in the topmost slot goes on to the element after, by the next link.
pub fn advance(m: Machine, exec: &mut [u32], cells: &[u32])
    requires { (1 ≤ m.frames) × (frame_kind exec.old (m.frames - 1) ≡ 1) × (1 ≤ frame_left exec.old (m.frames - 1)) × Somewhere m exec.old cells.now }
    ensures advances { Advances m exec.old exec.new cells.now }
    ensures turned { Turned m exec.old exec.new }
{
    let k = m.frames - 1;
    let c = exec[EXEC_WIDTH * k + FRAME_CELL];
    let left = exec[EXEC_WIDTH * k + FRAME_LEFT];
    let next = heap::next(cells, c);
    reset_top(m, exec, RUNNING, next, left - 1);
}

// The next element of the procedure that runs in the topmost slot is pushed.
pub fn push_element(m: Machine, stack: &mut [u32], exec: &[u32], cells: &mut [u32]) -> Machine
    requires { (1 ≤ m.frames) × (frame_kind exec.now (m.frames - 1) ≡ 1) × (1 ≤ frame_left exec.now (m.frames - 1)) × (2 * m.depth + 2 ≤ length stack.old) × SomewhereAll m stack.old exec.now cells.old }
    ensures pushes_element { PushesElement m result stack.old stack.new exec.now cells.old cells.new }
    ensures depth_value { (result.depth ≡ m.depth + 1) × (result.frames ≡ m.frames) }
{
    let k = m.frames - 1;
    let c = exec[EXEC_WIDTH * k + FRAME_CELL];
    let value = heap::value_of(cells, c);
    m.push_value(stack, cells, value)
}
