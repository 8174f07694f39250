// The types, counts and limits that the definition of Floo in specs/ shares with the code above it. Nothing runs here: each layer proves its own code
// against the definition.
#![tactic(auto)]

// Counts and limits, as specs/Sizes has them.
pub const OPERATOR_COUNT: usize = 61;

pub const NAME_COUNT: usize = OPERATOR_COUNT + 4;

pub const ERROR_COUNT: usize = 17;

pub const NAME_MOST: usize = 31;

// Words of a stack slot, an execution slot, a dictionary slot and a cell.
pub const STACK_WIDTH: usize = 2;

pub const EXEC_WIDTH: usize = 8;

pub const DICTIONARY_WIDTH: usize = 12;

pub const CELL_WIDTH: usize = 4;

// What setup accepts.
pub const SCRIPT_MOST: usize = 32_768;

pub const FUEL_MOST: u32 = 1_000_000;

pub const STACK_LEAST: usize = 8;

pub const STACK_MOST: usize = 256;

pub const EXEC_LEAST: usize = 4;

pub const EXEC_MOST: usize = 128;

pub const DICTIONARY_MOST: usize = 512;

pub const CELLS_LEAST: usize = 1;

pub const CELLS_MOST: usize = 32_768;

pub const LOG_MOST: usize = 65_536;

pub const HEAD_ROOM: usize = 256;

pub const ITEM_ROOM: usize = 136;

// The errors of a step whose token, if it takes one, could be read. `error_text` of specs/Errors gives each its name in the paper.
#[derive(Clone, Copy, PartialEq, Eq, Debug)]
pub enum Error {
    LimitCheck,
    Undefined,
    StackUnderflow,
    TypeCheck,
    InvalidAccess,
    RangeCheck,
    UndefinedResult,
    UnmatchedMark,
    ExecStackOverflow,
    StackOverflow,
    VmError,
    IoError,
}

// What is wrong with a token, with the offset of the first byte that could not be accepted. A limit that is passed has no such byte.
// `fault_text` of specs/Errors gives each its name in the paper.
#[derive(Clone, Copy, PartialEq, Eq, Debug)]
pub enum Fault {
    BadNumber(u32),
    BadEscape(u32),
    OpenString(u32),
    BadBrace(u32),
    BadByte(u32),
    OverLimit,
}

// The kinds of tokens. `kind_text` of specs/Setup gives each its words in the paper.
#[derive(Clone, Copy, PartialEq, Eq, Debug)]
pub enum Kind {
    Integer,
    String,
    LiteralName,
    ExecutableName,
    OpenBrace,
    CloseBrace,
    End,
}
