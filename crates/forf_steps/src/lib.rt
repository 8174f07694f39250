// The steps of a Forf run: on the top of the execution stack, or with an empty one on the next token of the script, until the run is finished, failed or out of
// fuel. A step reads one item, at one place of the code whatever it is read from, so that the compiler keeps the small state in registers.
#![tactic(auto)]

ghost use Rattle.std.specs.Prelude.{◌≡◌, ◌*◌, ◌≤◌, ◌<◌, length};
ghost use Rattle.semantics.specs.Sizes.{script_most};
ghost use Rattle.forf_steps.specs.Stepping.{Acting, Acts, Ready, Steps, is_pending, place_of, moved_on, state_after, state_failed, without_item, command_of, is_done};
ghost use Rattle.forf_steps.specs.Running.{Begun, Ends};
ghost use Rattle.forf_steps.specs.declared.Ending.TheVariants.{Finished, OutOfFuel, Failed};

use forf_groups::Item;
use forf_machine::{Machine, PENDING, RUNNING, TAG_INTEGER, TAG_SUBSTACK};
use forf_semantics::Error;
use semantics::EXEC_WIDTH;

// The small state of a run: the machine's, the offset of the script bytes that are left, that of the token last taken, and the steps made.
#[derive(Clone, Copy)]
pub struct State {
    pub machine: Machine,
    pub next: usize,
    pub at: usize,
    pub steps: u32,
}

// The word whose execution failed, by where its bytes begin and how many they are; none where what failed was no word.
pub type Command = Option<(usize, usize)>;

// What is wrong with a step, and the state after it.
#[derive(Clone, Copy)]
pub struct Failure {
    pub error: Error,
    pub command: Command,
    pub state: State,
}

#[derive(Clone, Copy)]
pub enum Ending {
    Finished,
    OutOfFuel,
    Failed(Error, Command),
}

// The state after the last step, and how the run ended.
#[derive(Clone, Copy)]
pub struct Ended {
    pub state: State,
    pub ending: Ending,
}

// All steps from the start on, at most `fuel` of them.
// Ruled out: a step more than there is fuel; a script that is finished at no fuel called out of fuel.
pub fn run(
    script: &[u8],
    fuel: u32,
    stack: &mut [u32],
    exec: &mut [u32],
    memory: &mut [u32],
) -> Ended
    requires { Begun script.now fuel memory.old }
    ensures { Ends script.now fuel stack.old stack.new exec.old memory.old memory.new result }
{
    let mut st = State {
        machine: Machine {
            depth: 0,
            frames: 0,
        },
        next: 0,
        at: 0,
        steps: 0,
    };
    loop {
        if is_finished(st, script) {
            return finished(st, script.len());
        }
        if st.steps == fuel {
            return spent(st);
        }
        match step(st, script, stack, exec, memory) {
            Ok(next) => {
                st = next;
            }
            Err(failure) => {
                return stuck(failure);
            }
        }
    }
}

fn finished(st: State, end: usize) -> Ended
    ensures { result ≡ record { state = record { machine = st.machine; next = st.next; at = end; steps = st.steps }; ending = Finished } }
{
    Ended {
        state: State { at: end, ..st },
        ending: Ending::Finished,
    }
}

fn spent(st: State) -> Ended
    ensures { result ≡ record { state = st; ending = OutOfFuel } }
{
    Ended {
        state: st,
        ending: Ending::OutOfFuel,
    }
}

fn stuck(failure: Failure) -> Ended
    ensures { result ≡ record { state = failure.state; ending = Failed failure.error failure.command } }
{
    Ended {
        state: failure.state,
        ending: Ending::Failed(failure.error, failure.command),
    }
}

// Whether only space and comments are left, and the execution stack is empty.
fn is_finished(st: State, script: &[u8]) -> bool
    requires { st.next ≤ length script.now }
    ensures { result ≡ is_done script.now st.machine.frames st.next }
{
    let m = st.machine;
    if 0 < m.frames {
        return false;
    }
    forf_token::skip(script, st.next) == script.len()
}

// One step.
// Ruled out: a word that acts a step after it is taken; a failing step that keeps what its mset would store.
fn step(
    st: State,
    script: &[u8],
    stack: &mut [u32],
    exec: &mut [u32],
    memory: &mut [u32],
) -> Result<State, Failure>
    requires { Ready script.now st stack.old exec.old memory.old }
    ensures { Steps script.now st stack.old stack.new exec.old exec.new memory.old memory.new result }
{
    let m = st.machine;
    let place = place_of(m, st.next, exec);
    if is_pending(m, exec) {
        forf_machine::put(exec, EXEC_WIDTH, m.frames - 1, RUNNING, place as u32);
        return Ok(after(st, m, place, place));
    }
    let start = forf_token::skip(script, place);
    let Some((item, next)) = forf_groups::read_item(script, start) else {
        return no_item(st, start);
    };
    move_on(m, exec, next);
    match act(item, m, script, stack, exec, memory) {
        Ok(r) => Ok(after(st, r, start, next)),
        Err(error) => Err(Failure {
            error,
            command: command_of(item),
            state: failed(st, start),
        }),
    }
}

// An item acts: integers and substacks are pushed, a word is performed.
fn act(
    item: Item,
    m: Machine,
    script: &[u8],
    stack: &mut [u32],
    exec: &mut [u32],
    memory: &mut [u32],
) -> Result<Machine, Error>
    requires { Acting script.now item m stack.old exec.old memory.old }
    ensures { Acts script.now item m stack.old stack.new exec.old exec.new memory.old memory.new result }
{
    match item {
        Item::Number(w) => m.push(stack, TAG_INTEGER, w),
        Item::Word(start, size) => {
            let word = forf_machine::operator_of(&script[start..start + size]);
            forf_machine::perform_word(word, m, stack, exec, memory)
        }
        Item::Substack(body) => m.push(stack, TAG_SUBSTACK, body as u32),
    }
}

// ---- where the item is read from: the script, or the running substack on the top

fn is_pending(m: Machine, exec: &[u32]) -> bool
    requires { 8 * m.frames ≤ length exec.now }
    ensures { result ≡ is_pending m.frames exec.now }
{
    if m.frames == 0 {
        return false;
    }
    let top = m.frames - 1;
    exec[EXEC_WIDTH * top] == PENDING
}

fn place_of(m: Machine, next: usize, exec: &[u32]) -> usize
    requires { 8 * m.frames ≤ length exec.now }
    ensures { result ≡ place_of m.frames next exec.now }
{
    if m.frames == 0 {
        return next;
    }
    let top = m.frames - 1;
    exec[EXEC_WIDTH * top + 1] as usize
}

// The running substack goes on behind the item.
fn move_on(m: Machine, exec: &mut [u32], next: usize)
    requires { (8 * m.frames ≤ length exec.old) × (next ≤ script_most) }
    ensures { exec.new ≡ moved_on m.frames next exec.old }
{
    if 0 < m.frames {
        forf_machine::put(exec, EXEC_WIDTH, m.frames - 1, RUNNING, next as u32);
    }
}

// No item is left of a running substack, which is dropped; or the script's token is a bad one.
fn no_item(st: State, start: usize) -> Result<State, Failure>
    requires { st.steps < 1000000 }
    ensures { result ≡ without_item st start }
{
    let m = st.machine;
    if m.frames == 0 {
        return Err(Failure {
            error: Error::SyntaxError,
            command: None,
            state: failed(st, start),
        });
    }
    let dropped = Machine {
        frames: m.frames - 1,
        ..m
    };
    Ok(after(st, dropped, start, start))
}

// The state after a step that leaves m: the script goes on at `next` if the token at `start` was taken from it.
fn after(st: State, m: Machine, start: usize, next: usize) -> State
    requires { st.steps < 1000000 }
    ensures { result ≡ state_after st m start next }
{
    let old = st.machine;
    if old.frames == 0 {
        return State {
            machine: m,
            next,
            at: start,
            steps: st.steps + 1,
        };
    }
    State {
        machine: m,
        steps: st.steps + 1,
        ..st
    }
}

// The state after a failing step.
fn failed(st: State, start: usize) -> State
    requires { st.steps < 1000000 }
    ensures { result ≡ state_failed st start }
{
    let m = st.machine;
    after(st, m, start, st.next)
}

fn command_of(item: Item) -> Command
    ensures { result ≡ command_of item }
{
    match item {
        Item::Word(start, size) => Some((start, size)),
        Item::Number(_) | Item::Substack(_) => None,
    }
}
