// The runner: setup, the run and its outcome, in one operation that asks nothing beforehand.
#![tactic(auto)]

ghost use Rattle.runner.specs.Promise.{Runs, Ready, CarriesOut, MayProceed, Proceeds};
ghost use Rattle.semantics.specs.Steps.{initial};

use ending::Ending;
use machine::Machine;
use semantics::{CELL_WIDTH, DICTIONARY_WIDTH, EXEC_WIDTH, STACK_WIDTH};
use setup::{Lent, Refusal};
use step::State;

// The steps made, how many bytes of the log are written, and how many of the outcome; and the small state at the end, by which the lent words are read.
#[derive(Clone, Copy)]
pub struct Report {
    pub steps: u32,
    pub log: usize,
    pub outcome: usize,
    pub machine: Machine,
}

// A script is run with what is lent, or refused.
// Ruled out: a refusal that has touched a buffer; a word past whole slots written; a run that answers without its steps.
pub fn run(
    script: &[u8],
    fuel: u32,
    stack: &mut [u32],
    exec: &mut [u32],
    dict: &mut [u32],
    cells: &mut [u32],
    log: &mut [u8],
    outcome: &mut [u8],
) -> Result<Report, Refusal>
    ensures { Runs script.now fuel stack.old stack.new exec.old exec.new dict.old dict.new cells.old cells.new log.old log.new outcome.old outcome.new result }
{
    let lent = Lent {
        stack: stack.len(),
        exec: exec.len(),
        dict: dict.len(),
        cells: cells.len(),
        log: log.len(),
        outcome: outcome.len(),
    };
    setup::check(script, fuel, lent)?;
    // words past whole slots are not lent on
    let a = stack.len() / STACK_WIDTH * STACK_WIDTH;
    let b = exec.len() / EXEC_WIDTH * EXEC_WIDTH;
    let c = dict.len() / DICTIONARY_WIDTH * DICTIONARY_WIDTH;
    let d = cells.len() / CELL_WIDTH * CELL_WIDTH;
    let report = carry_out(
        script,
        fuel,
        &mut stack[..a],
        &mut exec[..b],
        &mut dict[..c],
        &mut cells[..d],
        log,
        outcome,
    );
    Ok(report)
}

// The run, where setup accepts.
fn carry_out(
    script: &[u8],
    fuel: u32,
    stack: &mut [u32],
    exec: &mut [u32],
    dict: &mut [u32],
    cells: &mut [u32],
    log: &mut [u8],
    outcome: &mut [u8],
) -> Report
    requires { Ready script.now fuel stack.old exec.old dict.old cells.old log.old outcome.old }
    ensures { CarriesOut script.now fuel initial 0 0 stack.old stack.new exec.old exec.new dict.old dict.new cells.old cells.new log.old log.new outcome.old outcome.new result }
{
    let m = start::begin(dict, cells);
    let st = State {
        machine: m,
        next: 0,
        at: 0,
        steps: 0,
    };
    let done = proceed(st, script, fuel, stack, exec, dict, cells, log, outcome);
    done.report
}

// What a run from a state came to: the report, the state at its end, and how it ended.
#[derive(Clone, Copy)]
pub struct Proceeded {
    pub report: Report,
    pub state: State,
    pub ending: Ending,
}

// The run from any state on, with whole slots whose words stand for a machine: its steps, then its outcome.
// Ruled out: steps that are counted from none; the outcome of another state than the one reached.
pub fn proceed(
    start: State,
    script: &[u8],
    fuel: u32,
    stack: &mut [u32],
    exec: &mut [u32],
    dict: &mut [u32],
    cells: &mut [u32],
    log: &mut [u8],
    outcome: &mut [u8],
) -> Proceeded
    requires { MayProceed script.now fuel start stack.old exec.old dict.old cells.old log.old outcome.old }
    ensures { Proceeds script.now fuel start stack.old stack.new exec.old exec.new dict.old dict.new cells.old cells.new log.old log.new outcome.old outcome.new result }
{
    let ended = run_loop::advance(start, script, fuel, stack, exec, dict, cells, log);
    let st = ended.state;
    let last = st.machine;
    let ending = ended.ending;
    let n = outcome::write(
        last, ending, st.at, st.steps, script, stack, dict, cells, outcome,
    );
    Proceeded {
        report: Report {
            steps: st.steps,
            log: last.written,
            outcome: n,
            machine: last,
        },
        state: st,
        ending,
    }
}
