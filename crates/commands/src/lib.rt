// What the topmost execution slot would execute, an operator or a name, read from the words before the step, so that a step that fails can report it.
// It is exactly the command that the definition's step hands on.
#![tactic(auto)]

ghost use Rattle.std.specs.Prelude.{◌≤◌};
ghost use Rattle.machine.specs.FrameMoves.{Somewhere};
ghost use Rattle.commands.specs.Commands.{CommandIs, Commands};

use ending::Command;
use frames::{PENDING, RUNNING};
use machine::{
    FRAME_CELL, FRAME_LEFT, FRAME_PAYLOAD, FRAME_TAG, Machine, TAG_EXECUTABLE, TAG_OPERATOR,
};
use semantics::EXEC_WIDTH;

// The command of the topmost slot: what is pending, or a procedure's next element.
// Ruled out: the element before or after the next one; a command of a loop or of a literal name.
pub fn command(m: Machine, exec: &[u32], cells: &[u32]) -> Command
    requires { (1 ≤ m.frames) × Somewhere m exec.now cells.now }
    ensures { Commands m exec.now cells.now result }
{
    let k = m.frames - 1;
    let kind = exec[EXEC_WIDTH * k];
    if kind == PENDING {
        let tag = exec[EXEC_WIDTH * k + FRAME_TAG];
        let pay = exec[EXEC_WIDTH * k + FRAME_PAYLOAD];
        return command_of(tag, pay);
    }
    if kind == RUNNING {
        let c = exec[EXEC_WIDTH * k + FRAME_CELL];
        let left = exec[EXEC_WIDTH * k + FRAME_LEFT];
        if left == 0 {
            return Command::Nothing;
        }
        let tag = heap::get(cells, c, 0);
        let pay = heap::get(cells, c, 1);
        return command_of(tag, pay);
    }
    Command::Nothing
}

// The command that a value is, by its two words.
fn command_of(tag: u32, pay: u32) -> Command
    ensures { CommandIs tag pay result }
{
    if tag == TAG_OPERATOR {
        return Command::Operator(pay);
    }
    if tag == TAG_EXECUTABLE {
        return Command::Name(pay);
    }
    Command::Nothing
}
