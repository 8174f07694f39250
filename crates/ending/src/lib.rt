// How a run ends, said in numbers and offsets: what a failing step hands on and the outcome writes.
#![tactic(auto)]

use semantics::{Error, Fault};

// The operator or executable name whose execution failed: none, an operator by its number, a name by its slot, or a name of the script by its offset and size. Of
// a script token that is no name, none, and the offset after it: two of the five have no command, so an Option of the others would not be plainer.
#[derive(Clone, Copy, PartialEq, Eq, Debug)]
pub enum Command {
    Nothing,
    Operator(u32),
    Name(u32),
    Token(usize, usize),
    Taken(usize),
}

#[derive(Clone, Copy, PartialEq, Eq, Debug)]
pub enum Ending {
    Finished,
    Stopped,
    OutOfFuel,
    Failed(Error, Command),
    Misread(Fault),
}
