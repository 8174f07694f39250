// The steps of a run, one after another, until it is finished, stopped, failed or out of fuel. The promise is one claim about the whole list of steps: the moments
// of the run, each led to by a step from the one before, against the states of the definition's run.
#![tactic(auto)]

ghost use Rattle.std.specs.Prelude.{◌≡◌, ◌≤◌};
ghost use Rattle.semantics.specs.Sizes.{script_most};
ghost use Rattle.ending.specs.Endings.{after_of};
ghost use Rattle.run_loop.specs.History.{Begun, Ends};
ghost use Rattle.run_loop.specs.Halting.{MayHalt, Halts};

use ending::{Command, Ending};
use step::{State, Stepped};

// The state after the last step, and how the run ended.
#[derive(Clone, Copy)]
pub struct Ended {
    pub state: State,
    pub ending: Ending,
}

// All steps from a state on, at most `fuel` of them; the count of steps goes on from the state's. An error is handed over to its handler here, out of the loop of
// steps, so that the loop does not pay for it.
// Ruled out: a step more than there is fuel; a script that is finished at no fuel called out of fuel; a step after `stop`.
pub fn advance(
    start: State,
    script: &[u8],
    fuel: u32,
    stack: &mut [u32],
    exec: &mut [u32],
    dict: &mut [u32],
    cells: &mut [u32],
    log: &mut [u8],
) -> Ended
    requires { Begun script.now fuel start stack.old exec.old dict.old cells.old log.old }
    ensures { Ends script.now fuel start stack.old stack.new exec.old exec.new dict.old dict.new cells.old cells.new log.old log.new result.state result.ending }
{
    let limit = start.steps + fuel;
    let mut st = start;
    loop {
        let ended = until_error(st, script, limit, stack, exec, dict, cells, log);
        let Ending::Failed(e, command) = ended.ending else {
            return ended;
        };
        let left = ended.state;
        let handed = handover::hand_over(left.machine, script, exec, dict, cells, e, command);
        let Some(r) = handed else {
            return ended;
        };
        let next = State {
            machine: r,
            next: after(left.next, command),
            ..left
        };
        if r.stopped {
            return Ended {
                state: next,
                ending: Ending::Stopped,
            };
        }
        st = next;
    }
}

// The steps up to an error, or to the run's end, which is at `limit` steps at the latest.
fn until_error(
    start: State,
    script: &[u8],
    limit: u32,
    stack: &mut [u32],
    exec: &mut [u32],
    dict: &mut [u32],
    cells: &mut [u32],
    log: &mut [u8],
) -> Ended
    requires { MayHalt script.now limit start stack.old exec.old dict.old cells.old log.old }
    ensures { Halts script.now limit start stack.old stack.new exec.old exec.new dict.old dict.new cells.old cells.new log.old log.new result.state result.ending }
{
    let mut st = start.by_fields();
    loop {
        if st.is_finished(script) {
            return Ended {
                state: st.finish(script.len()),
                ending: Ending::Finished,
            };
        }
        if st.steps == limit {
            return Ended {
                state: st,
                ending: Ending::OutOfFuel,
            };
        }
        let m = st.machine;
        let stepped = if m.frames == 0 {
            st.take(script, stack, exec, dict, cells)
        } else {
            st.resume(stack, exec, dict, cells, log)
        };
        match stepped {
            Stepped::Goes(next) => {
                let now = next.machine;
                if now.stopped {
                    return Ended {
                        state: next,
                        ending: Ending::Stopped,
                    };
                }
                st = next.by_fields();
            }
            Stepped::Fails(next, e, command) => {
                return Ended {
                    state: next,
                    ending: Ending::Failed(e, command),
                };
            }
            Stepped::Misreads(next, _, f) => {
                return Ended {
                    state: next,
                    ending: Ending::Misread(f),
                };
            }
        }
    }
}

// Where the script's bytes that are left begin once what failed is taken.
fn after(next: usize, command: Command) -> usize
    requires { after_of next command ≤ script_most }
    ensures { result ≡ after_of next command }
{
    match command {
        Command::Token(at, size) => at + size,
        Command::Taken(n) => n,
        Command::Nothing | Command::Operator(_) | Command::Name(_) => next,
    }
}
