// Whether a run is made: the refusals 1 to 9 of the paper's table (01, Setup). `check` answers as the definition does, for every
// script, fuel and lent lengths. It reads the script's first five bytes and lengths only, so no lent byte changes.
#![tactic(auto)]

ghost use Rattle.std.specs.Prelude.{◌≡◌, not, take};
ghost use Rattle.semantics.specs.Text.{bytes, same};
ghost use Rattle.semantics.specs.Tokens.{within};
ghost use Rattle.semantics.specs.Setup as setup;
ghost use Rattle.setup.specs.Lending.{lent_of, number_of, number_told};

use semantics::{
    CELL_WIDTH, CELLS_LEAST, CELLS_MOST, DICTIONARY_MOST, DICTIONARY_WIDTH, EXEC_LEAST, EXEC_MOST,
    EXEC_WIDTH, FUEL_MOST, HEAD_ROOM, ITEM_ROOM, LOG_MOST, NAME_COUNT, SCRIPT_MOST, STACK_LEAST,
    STACK_MOST, STACK_WIDTH,
};

// What a caller lends: the lengths of the four buffers of 32-bit words, and of the two of bytes.
#[derive(Clone, Copy, PartialEq, Eq, Debug)]
pub struct Lent {
    pub stack: usize,
    pub exec: usize,
    pub dict: usize,
    pub cells: usize,
    pub log: usize,
    pub outcome: usize,
}

// The refusals of the paper's table, in its order.
#[derive(Clone, Copy, PartialEq, Eq, Debug)]
pub enum Refusal {
    ScriptTooLong = 1,
    NotAScript = 2,
    TooMuchFuel = 3,
    StackSlots = 4,
    ExecutionSlots = 5,
    DictionarySlots = 6,
    Cells = 7,
    LogTooLong = 8,
    OutcomeTooShort = 9,
}

impl Refusal {
    // Its number in the table.
    pub fn number(self) -> u32
        ensures { result ≡ number_of self }
    {
        self as u32
    }
}

// Whether the run is made, or which refusal stands in the way. The tests stand in the table's order.
// Ruled out: 257 stack slots let through; 4 for a script without `#FLOO` that is lent too small a stack as well.
pub fn check(script: &[u8], fuel: u32, lent: Lent) -> Result<(), Refusal>
    ensures { number_told result ≡ setup.refusal script.now fuel (lent_of lent) }
{
    if SCRIPT_MOST < script.len() {
        return Err(Refusal::ScriptTooLong);
    }
    if !begins(script) {
        return Err(Refusal::NotAScript);
    }
    if FUEL_MOST < fuel {
        return Err(Refusal::TooMuchFuel);
    }
    let slots = lent.stack / STACK_WIDTH;
    if outside(STACK_LEAST, STACK_MOST, slots) {
        return Err(Refusal::StackSlots);
    }
    if outside(EXEC_LEAST, EXEC_MOST, lent.exec / EXEC_WIDTH) {
        return Err(Refusal::ExecutionSlots);
    }
    if outside(NAME_COUNT, DICTIONARY_MOST, lent.dict / DICTIONARY_WIDTH) {
        return Err(Refusal::DictionarySlots);
    }
    if outside(CELLS_LEAST, CELLS_MOST, lent.cells / CELL_WIDTH) {
        return Err(Refusal::Cells);
    }
    if LOG_MOST < lent.log {
        return Err(Refusal::LogTooLong);
    }
    // The slots are few here, so that the product fits.
    if lent.outcome < HEAD_ROOM + ITEM_ROOM * slots {
        return Err(Refusal::OutcomeTooShort);
    }
    Ok(())
}

// `check` by its number alone. It stands in a module, since `Refusal` has the name outside.
pub mod numbered {
    use crate::{Lent, check};

    // The number of the refusal, or 0 where the run is made.
    // Ruled out: a refusal told as a run that is made; a run that is made told as a refusal.
    pub fn refusal(script: &[u8], fuel: u32, lent: Lent) -> u32
        ensures { result ≡ setup.refusal script.now fuel (lent_of lent) }
    {
        match check(script, fuel, lent) {
            Ok(()) => 0,
            Err(told) => told.number(),
        }
    }
}

// Whether the script's first five bytes are `#FLOO`.
fn begins(script: &[u8]) -> bool
    ensures { result ≡ same (take 5 script.now) (bytes "#FLOO") }
{
    script.starts_with(b"#FLOO")
}

pub fn outside(low: usize, high: usize, n: usize) -> bool
    ensures { result ≡ not (within low high n) }
{
    !(low..=high).contains(&n)
}
