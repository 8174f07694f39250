// The runner of Forf: setup, the steps and the outcome, in one operation that asks nothing beforehand. The memory is kept for the next run.
#![tactic(auto)]

ghost use Rattle.std.specs.Prelude.{◌≡◌};
ghost use Rattle.forf_runner.specs.Promise.{Runs, Ready, CarriesOut, Refuses, number_of, refusal_of};

use semantics::{
    EXEC_LEAST, EXEC_MOST, EXEC_WIDTH, FUEL_MOST, HEAD_ROOM, ITEM_ROOM, SCRIPT_MOST, STACK_LEAST,
    STACK_MOST, STACK_WIDTH,
};

pub const MEMORY_SLOTS: usize = 32;

// Why a script is not run: what setup refuses, in its order, or a memory that has not 32 slots.
#[derive(Clone, Copy, PartialEq, Eq, Debug)]
pub enum Refusal {
    Script,
    Fuel,
    Stack,
    Execution,
    Outcome,
    Memory,
}

impl Refusal {
    // Setup's number of it; none of a memory's, which is no number of setup.
    pub fn number(self) -> Option<u32>
        ensures { result ≡ number_of self }
    {
        match self {
            Refusal::Script => Some(1),
            Refusal::Fuel => Some(3),
            Refusal::Stack => Some(4),
            Refusal::Execution => Some(5),
            Refusal::Outcome => Some(9),
            Refusal::Memory => None,
        }
    }
}

// The steps made, and how many bytes of the outcome are written.
#[derive(Clone, Copy)]
pub struct Report {
    pub steps: u32,
    pub outcome: usize,
}

// A script is run with what is lent, or refused.
// Ruled out: a refusal that has touched a buffer; a run that keeps the memory of a failing step's mset; a word past whole slots written.
pub fn run(
    script: &[u8],
    fuel: u32,
    stack: &mut [u32],
    exec: &mut [u32],
    memory: &mut [u32],
    outcome: &mut [u8],
) -> Result<Report, Refusal>
    ensures { Runs script.now fuel stack.old stack.new exec.old exec.new memory.old memory.new outcome.old outcome.new result }
{
    set_up(script.len(), fuel, stack.len(), exec.len(), outcome.len())?;
    if memory.len() != MEMORY_SLOTS {
        return Err(Refusal::Memory);
    }
    // words past whole slots are not lent on
    let a = stack.len() / STACK_WIDTH * STACK_WIDTH;
    let b = exec.len() / EXEC_WIDTH * EXEC_WIDTH;
    let report = carry_out(
        script,
        fuel,
        &mut stack[..a],
        &mut exec[..b],
        memory,
        outcome,
    );
    Ok(report)
}

// The run, where setup accepts.
fn carry_out(
    script: &[u8],
    fuel: u32,
    stack: &mut [u32],
    exec: &mut [u32],
    memory: &mut [u32],
    outcome: &mut [u8],
) -> Report
    requires { Ready script.now fuel stack.old exec.old memory.old outcome.old }
    ensures { CarriesOut script.now fuel stack.old exec.old memory.old memory.new outcome.old outcome.new result }
{
    let ended = forf_steps::run(script, fuel, stack, exec, memory);
    let n = forf_outcome::write(ended, script, stack, outcome);
    let st = ended.state;
    Report {
        steps: st.steps,
        outcome: n,
    }
}

// What setup refuses, in its order.
// Ruled out: 257 stack slots let through; Stack where the script is too long as well.
fn set_up(
    script: usize,
    fuel: u32,
    stack: usize,
    exec: usize,
    outcome: usize,
) -> Result<(), Refusal>
    ensures { Refuses (refusal_of script fuel stack exec outcome) result }
{
    if SCRIPT_MOST < script {
        return Err(Refusal::Script);
    }
    if FUEL_MOST < fuel {
        return Err(Refusal::Fuel);
    }
    let slots = stack / STACK_WIDTH;
    if setup::outside(STACK_LEAST, STACK_MOST, slots) {
        return Err(Refusal::Stack);
    }
    if setup::outside(EXEC_LEAST, EXEC_MOST, exec / EXEC_WIDTH) {
        return Err(Refusal::Execution);
    }
    // the slots are few here, so that the product fits
    if outcome < HEAD_ROOM + ITEM_ROOM * slots {
        return Err(Refusal::Outcome);
    }
    Ok(())
}
