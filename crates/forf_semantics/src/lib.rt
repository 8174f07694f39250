// The types that the definition of Forf in specs/ shares with the code above it. Nothing runs here.
#![tactic(auto)]

// The errors of a step, in their order. `error_text` of specs/Outcome gives each its name in the paper.
#[derive(Clone, Copy, PartialEq, Eq, Debug)]
pub enum Error {
    SyntaxError,
    Undefined,
    StackUnderflow,
    TypeCheck,
    RangeCheck,
    UndefinedResult,
    ExecStackOverflow,
    StackOverflow,
}

// The kinds of tokens. `kind_text` of specs/Setup gives each its words in the paper.
#[derive(Clone, Copy, PartialEq, Eq, Debug)]
pub enum Kind {
    Integer,
    Word,
    OpenBrace,
    CloseBrace,
    End,
}
