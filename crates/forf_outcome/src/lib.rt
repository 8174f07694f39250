// The outcome's text of a Forf run (02, W10; 01, Outcome), written from the machine's words: how the run ended, the offset of its last token, two counts, and the
// stack's items, the bottom first. What is written are the definition's bytes.
#![tactic(auto)]

ghost use Rattle.std.specs.Prelude.{◌≡◌, ◌+◌, ◌*◌, ◌≤◌, ◌<◌, length};
ghost use Rattle.text.specs.Writing.{Written};
ghost use Rattle.forf_semantics.specs.Errors.{error_text};
ghost use Rattle.forf_semantics.specs.Outcome.{ending_lines};
ghost use Rattle.forf_steps.specs.Stepping.{HeldCommand, command_text};
ghost use Rattle.forf_steps.specs.Running.{ending_of, HeldEnding};
ghost use Rattle.forf_outcome.specs.Reports.{failure_lines, Items, line_at, item_lines, Writing, outcome_of};

use forf_machine::TAG_INTEGER;
use forf_semantics::Error;
use forf_steps::{Command, Ended, Ending};
use semantics::STACK_WIDTH;

// The outcome at the front of `out`.
// Ruled out: the items with the topmost first; an inner substack's items counted with the outer one's.
pub fn write(ended: Ended, script: &[u8], stack: &[u32], out: &mut [u8]) -> usize
    requires { Writing script.now ended stack.now out.old }
    ensures { Written 0 (outcome_of script.now ended stack.now) out.old out.new result }
{
    let st = ended.state;
    let ending = ended.ending;
    let m = st.machine;
    let head = write_ending(ending, script, out);
    let a = text::write_number(out, head, b"at", st.at as u32);
    let b = text::write_number(out, a, b"steps", st.steps);
    let c = text::write_number(out, b, b"depth", m.depth as u32);
    write_items(m.depth, script, stack, out, c)
}

// ---- how the run ended

fn write_ending(ending: Ending, script: &[u8], out: &mut [u8]) -> usize
    requires { (HeldEnding script.now ending) × (171 ≤ length out.old) }
    ensures { Written 0 (ending_lines (ending_of script.now ending)) out.old out.new result }
{
    match ending {
        Ending::Finished => text::copy(out, 0, b"ending=finished\nerror=none\ncommand=\n"),
        Ending::OutOfFuel => text::copy(out, 0, b"ending=fuel\nerror=none\ncommand=\n"),
        Ending::Failed(error, command) => write_failure(error, command, script, out),
    }
}

fn write_failure(error: Error, command: Command, script: &[u8], out: &mut [u8]) -> usize
    requires { (HeldCommand script.now command) × (171 ≤ length out.old) }
    ensures { Written 0 (failure_lines script.now error command) out.old out.new result }
{
    let start = text::copy(out, 0, b"ending=error\nerror=");
    let middle = text::copy(out, start, name_of(error));
    let name = text::copy(out, middle, b"\ncommand=");
    let after = write_command(command, script, out, name);
    out[after] = b'\n';
    after + 1
}

// The paper's name of an error.
#[tactic(auto, unfolding(forf_semantics::specs::Errors::error_text, semantics::specs::Text::bytes))]
fn name_of(error: Error) -> &'static [u8]
    ensures { result.now ≡ error_text error }
{
    match error {
        Error::SyntaxError => b"syntaxerror",
        Error::Undefined => b"undefined",
        Error::StackUnderflow => b"stackunderflow",
        Error::TypeCheck => b"typecheck",
        Error::RangeCheck => b"rangecheck",
        Error::UndefinedResult => b"undefinedresult",
        Error::ExecStackOverflow => b"execstackoverflow",
        Error::StackOverflow => b"stackoverflow",
    }
}

// A word of 31 bytes has 125 at most, escaped.
fn write_command(command: Command, script: &[u8], out: &mut [u8], at: usize) -> usize
    requires { (HeldCommand script.now command) × (at + 125 ≤ length out.old) }
    ensures { Written at (command_text script.now command) out.old out.new result }
{
    match command {
        None => at,
        Some((start, size)) => text::write_name(out, at, true, &script[start..start + size]),
    }
}

// ---- the items

// The bottom item first.
fn write_items(depth: usize, script: &[u8], stack: &[u32], out: &mut [u8], at: usize) -> usize
    requires { (Items script.now depth stack.now) × (at + 136 * depth ≤ length out.old) }
    ensures { Written at (item_lines script.now depth stack.now) out.old out.new result }
{
    let mut next = at;
    for i in 0..depth {
        next = write_item(i, script, stack, out, next);
    }
    next
}

// The line of slot i.
fn write_item(i: usize, script: &[u8], stack: &[u32], out: &mut [u8], at: usize) -> usize
    requires { (Items script.now (i + 1) stack.now) × (at + 136 ≤ length out.old) }
    ensures { Written at (line_at script.now i stack.now) out.old out.new result }
{
    let payload = stack[STACK_WIDTH * i + 1];
    if stack[STACK_WIDTH * i] == TAG_INTEGER {
        let next = text::copy(out, at, b"item=integer:");
        let after = text::write_integer(out, next, payload);
        out[after] = b'\n';
        return after + 1;
    }
    let n = forf_groups::count_items(script, payload as usize);
    let next = text::copy(out, at, b"item=substack:");
    let after = text::write_decimal(out, next, n);
    out[after] = b'\n';
    after + 1
}
