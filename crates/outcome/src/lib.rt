// The outcome's text (01, Outcome; 02, W4), written from the machine's words: how the run ended, the offsets of its last token and of a fault in it, four counts, and
// the stack's items, the bottom first. What is written are the definition's bytes, in every machine that the words stand for.
#![tactic(auto)]

ghost use Rattle.std.specs.Prelude.{◌≡◌, ◌+◌, ◌*◌, ◌≤◌, ◌<◌, length};
ghost use Rattle.semantics.specs.Sizes.{item_room};
ghost use Rattle.semantics.specs.Text.{bytes};
ghost use Rattle.semantics.specs.Errors.{error_text, fault_text, where_text};
ghost use Rattle.semantics.specs.Steps.{misread};
ghost use Rattle.semantics.specs.Outcome.{line, ending_lines};
ghost use Rattle.text.specs.Writing.{Written};
ghost use Rattle.elements.specs.Elements.{HasString, SomewhereThat};
ghost use Rattle.outcome.specs.Reports.{Ready, WritesOutcome, EndingRoom, WritesEnding, FailureRoom, WritesFailure, CommandRoom, WritesCommand};
ghost use Rattle.outcome.specs.Reports.{WritesWhere, CountsRoom, WritesCounts, ItemsRoom, WritesItems, ItemRoom, WritesItem, WritesValue, WritesSizes, kind_text};

use ending::{Command, Ending};
use machine::{
    ITEM_PAYLOAD, Machine, TAG_ARRAY, TAG_BOOLEAN, TAG_EXECUTABLE, TAG_INTEGER, TAG_LITERAL,
    TAG_MARK, TAG_OPERATOR, TAG_PROCEDURE, TAG_STRING,
};
use semantics::{Error, Fault, STACK_WIDTH};

// The outcome at the front of `out`.
// Ruled out: the items with the topmost first; the free cells counted for the held ones.
pub fn write(
    m: Machine,
    ending: Ending,
    at: usize,
    steps: u32,
    script: &[u8],
    stack: &[u32],
    dict: &[u32],
    cells: &[u32],
    out: &mut [u8],
) -> usize
    requires { Ready script.now m ending at stack.now dict.now cells.now out.old }
    ensures { WritesOutcome script.now m ending at steps stack.now dict.now cells.now out.old out.new result }
{
    let head = write_ending(ending, script, dict, cells, out);
    let token = text::write_number(out, head, b"at", at as u32);
    let place = write_where(out, token, ending);
    let next = write_counts(m, steps, cells, out, place);
    write_items(m, stack, dict, cells, out, next)
}

// ---- how the run ended

fn write_ending(ending: Ending, script: &[u8], dict: &[u32], cells: &[u32], out: &mut [u8]) -> usize
    requires { EndingRoom script.now dict.now cells.now ending out.old }
    ensures { WritesEnding script.now dict.now cells.now ending out.old out.new result }
{
    match ending {
        Ending::Finished => text::copy(out, 0, b"ending=finished\nerror=none\ncommand=\n"),
        Ending::Stopped => text::copy(out, 0, b"ending=stopped\nerror=none\ncommand=\n"),
        Ending::OutOfFuel => text::copy(out, 0, b"ending=fuel\nerror=none\ncommand=\n"),
        Ending::Failed(error, command) => write_failure(error, command, script, dict, cells, out),
        Ending::Misread(fault) => write_misread(fault, out),
    }
}

fn write_failure(
    error: Error,
    command: Command,
    script: &[u8],
    dict: &[u32],
    cells: &[u32],
    out: &mut [u8],
) -> usize
    requires { FailureRoom script.now dict.now cells.now command out.old }
    ensures { WritesFailure script.now dict.now cells.now error command out.old out.new result }
{
    let start = text::copy(out, 0, b"ending=error\nerror=");
    let middle = write_error(out, start, error);
    let name = text::copy(out, middle, b"\ncommand=");
    let after = write_command(command, script, dict, cells, out, name);
    out[after] = b'\n';
    after + 1
}

// A fault of a token has no command.
fn write_misread(fault: Fault, out: &mut [u8]) -> usize
    requires { 39 ≤ length out.old }
    ensures { Written 0 (ending_lines (misread fault)) out.old out.new result }
{
    let start = text::copy(out, 0, b"ending=error\nerror=");
    let after = write_fault(out, start, fault);
    text::copy(out, after, b"\ncommand=\n")
}

fn write_fault(out: &mut [u8], at: usize, fault: Fault) -> usize
    requires { at + 10 ≤ length out.old }
    ensures { Written at (fault_text fault) out.old out.new result }
{
    text::copy(out, at, fault_name(fault))
}

// The same as bytes.
#[tactic(auto, unfolding(semantics::specs::Errors::fault_text, semantics::specs::Text::bytes))]
fn fault_name(fault: Fault) -> &'static [u8]
    ensures { result.now ≡ fault_text fault }
{
    match fault {
        Fault::BadNumber(_) => b"badnumber",
        Fault::BadEscape(_) => b"badescape",
        Fault::OpenString(_) => b"openstring",
        Fault::BadBrace(_) => b"badbrace",
        Fault::BadByte(_) => b"badbyte",
        Fault::OverLimit => b"limitcheck",
    }
}

fn write_error(out: &mut [u8], at: usize, error: Error) -> usize
    requires { at + 17 ≤ length out.old }
    ensures { Written at (error_text error) out.old out.new result }
{
    text::copy(out, at, error_name(error))
}

// The same as bytes.
#[tactic(auto, unfolding(semantics::specs::Errors::error_text, semantics::specs::Text::bytes))]
fn error_name(error: Error) -> &'static [u8]
    ensures { result.now ≡ error_text error }
{
    match error {
        Error::LimitCheck => b"limitcheck",
        Error::Undefined => b"undefined",
        Error::StackUnderflow => b"stackunderflow",
        Error::TypeCheck => b"typecheck",
        Error::InvalidAccess => b"invalidaccess",
        Error::RangeCheck => b"rangecheck",
        Error::UndefinedResult => b"undefinedresult",
        Error::UnmatchedMark => b"unmatchedmark",
        Error::ExecStackOverflow => b"execstackoverflow",
        Error::StackOverflow => b"stackoverflow",
        Error::VmError => b"VMerror",
        Error::IoError => b"ioerror",
    }
}

// The bytes of a name, escaped. An operator's name is in the slot of its number.
fn write_command(
    command: Command,
    script: &[u8],
    dict: &[u32],
    cells: &[u32],
    out: &mut [u8],
    at: usize,
) -> usize
    requires { CommandRoom script.now dict.now cells.now command at out.old }
    ensures { WritesCommand script.now dict.now cells.now command at out.old out.new result }
{
    match command {
        Command::Nothing => at,
        Command::Operator(k) => printing::write(dict, cells, out, at, TAG_EXECUTABLE, k, 0),
        Command::Name(k) => printing::write(dict, cells, out, at, TAG_EXECUTABLE, k, 0),
        Command::Token(start, size) => text::write_name(
            out,
            at,
            true,
            &script[start..start + size],
        ),
        Command::Taken(_) => at,
    }
}

// ---- the numbers

// The line of the first byte that could not be accepted, if a token had one.
fn write_where(out: &mut [u8], at: usize, ending: Ending) -> usize
    requires { at + 17 ≤ length out.old }
    ensures { WritesWhere ending at out.old out.new result }
{
    match ending {
        Ending::Misread(fault) => write_place(out, at, fault),
        _ => text::copy(out, at, b"where=\n"),
    }
}

fn write_place(out: &mut [u8], at: usize, fault: Fault) -> usize
    requires { at + 17 ≤ length out.old }
    ensures { Written at (line (bytes "where") (where_text fault)) out.old out.new result }
{
    match fault {
        Fault::BadNumber(place)
        | Fault::BadEscape(place)
        | Fault::OpenString(place)
        | Fault::BadBrace(place)
        | Fault::BadByte(place) => text::write_number(out, at, b"where", place),
        Fault::OverLimit => text::copy(out, at, b"where=\n"),
    }
}

// What is held are the cells that are not free.
fn write_counts(m: Machine, steps: u32, cells: &[u32], out: &mut [u8], next: usize) -> usize
    requires { CountsRoom m cells.now next out.old }
    ensures { WritesCounts m steps cells.now next out.old out.new result }
{
    let held = (cells.len() / 4) as u32 - elements::free_cells(m, cells);
    let b = text::write_number(out, next, b"steps", steps);
    let c = text::write_number(out, b, b"depth", m.depth as u32);
    let d = text::write_number(out, c, b"held", held);
    text::write_number(out, d, b"log", m.written as u32)
}

// ---- the items

// The bottom item first: it is the last one from the top.
fn write_items(
    m: Machine,
    stack: &[u32],
    dict: &[u32],
    cells: &[u32],
    out: &mut [u8],
    at: usize,
) -> usize
    requires { ItemsRoom m stack.now dict.now cells.now at out.old }
    ensures { WritesItems m stack.now dict.now cells.now at out.old out.new result }
{
    let mut next = at;
    for i in (0..m.depth).rev() {
        next = write_item(m, stack, dict, cells, out, next, i);
    }
    next
}

// The line of item i from the top.
fn write_item(
    m: Machine,
    stack: &[u32],
    dict: &[u32],
    cells: &[u32],
    out: &mut [u8],
    at: usize,
    i: usize,
) -> usize
    requires { (at + item_room ≤ length out.old) × ItemRoom i m stack.now dict.now cells.now }
    ensures { WritesItem i m stack.now dict.now cells.now at out.old out.new result }
{
    let next = text::copy(out, at, b"item=");
    let after = write_value(m, stack, dict, cells, out, next, i);
    out[after] = b'\n';
    after + 1
}

// What the line says of it.
fn write_value(
    m: Machine,
    stack: &[u32],
    dict: &[u32],
    cells: &[u32],
    out: &mut [u8],
    at: usize,
    i: usize,
) -> usize
    requires { (at + 130 ≤ length out.old) × ItemRoom i m stack.now dict.now cells.now }
    ensures { WritesValue i m stack.now dict.now cells.now at out.old out.new result }
{
    let k = m.depth - 1 - i;
    let tag = stack[STACK_WIDTH * k];
    let pay = stack[STACK_WIDTH * k + ITEM_PAYLOAD];
    let next = write_kind(out, at, tag);
    if tag == TAG_MARK {
        return next;
    }
    if tag == TAG_STRING {
        return write_sizes(m, stack, cells, out, next, i);
    }
    if TAG_ARRAY <= tag {
        let n = elements::size_of(m, stack, cells, i);
        return text::write_decimal(out, next, n);
    }
    if tag == TAG_OPERATOR {
        return printing::write(dict, cells, out, next, TAG_EXECUTABLE, pay, 0);
    }
    printing::write(dict, cells, out, next, tag, pay, 0)
}

// What an item begins with, by its tag.
fn write_kind(out: &mut [u8], at: usize, tag: u32) -> usize
    requires { at + 10 ≤ length out.old }
    ensures { Written at (kind_text tag) out.old out.new result }
{
    text::copy(out, at, kind_name(tag))
}

// The same as bytes. Null is a word by itself.
#[tactic(auto, unfolding(crate::specs::Reports::kind_text, semantics::specs::Text::bytes))]
fn kind_name(tag: u32) -> &'static [u8]
    ensures is_text { result.now ≡ kind_text tag }
    ensures short { length result.now ≤ 10 }
{
    match tag {
        TAG_INTEGER => b"integer:",
        TAG_BOOLEAN => b"boolean:",
        TAG_MARK => b"mark",
        TAG_OPERATOR => b"operator:",
        TAG_LITERAL => b"name:",
        TAG_EXECUTABLE => b"name:",
        TAG_STRING => b"string:",
        TAG_ARRAY => b"array:",
        TAG_PROCEDURE => b"procedure:",
        _ => b"",
    }
}

// The current length and the maximum of the string that is item i.
fn write_sizes(
    m: Machine,
    stack: &[u32],
    cells: &[u32],
    out: &mut [u8],
    at: usize,
    i: usize,
) -> usize
    requires { (at + 21 ≤ length out.old) × (i < m.depth) × SomewhereThat (HasString i) m stack.now cells.now }
    ensures { WritesSizes i m stack.now cells.now at out.old out.new result }
{
    let size = strings::current_length(m, stack, cells, i);
    let most = elements::maximum(m, stack, cells, i);
    let next = text::write_decimal(out, at, size);
    out[next] = b'/';
    text::write_decimal(out, next + 1, most)
}
