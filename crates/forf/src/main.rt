// The program: a Forf script on standard input is run with the sizes of the scope paper and a memory of zeros. Printed is its outcome, or the refusal.
// What is written of what is read is proved, for any reader and writer; that the bytes are those of standard input and go to standard output is not, since no contract can say it.
#![tactic(auto)]

ghost use Rattle.std.specs.Prelude.{◌+◌, IfSome, OnOk, take};
ghost use Rattle.std.specs.Io.KnownBytes.{Appends};
ghost use Rattle.semantics.specs.Sizes.{script_most};
ghost use Rattle.text.specs.Writing.{Written};
ghost use Rattle.forf.specs.Telling.{Within, told, printed_text};

use forf_runner::{MEMORY_SLOTS, Refusal, Report};
use semantics::{
    EXEC_MOST, EXEC_WIDTH, FUEL_MOST, HEAD_ROOM, ITEM_ROOM, SCRIPT_MOST, STACK_MOST, STACK_WIDTH,
};
use std::io;
use std::io::{Read, Write};

// The longest script and one byte more, so that a longer one is refused and not cut.
const SCRIPT: usize = SCRIPT_MOST + 1;

// As many slots as are accepted, in words.
const STACK: usize = STACK_WIDTH * STACK_MOST;

const EXECUTION: usize = EXEC_WIDTH * EXEC_MOST;

const OUTCOME: usize = HEAD_ROOM + ITEM_ROOM * STACK_MOST;

fn main(rt: HostRuntime) -> io::Result<()> {
    run_script(&mut rt.stdin(), &mut rt.stdout())
}

// The bytes of the reader are a script, and what is printed of it goes to the writer.
// Ruled out: a script that is cut to what may be run; a byte before or after what is printed.
fn run_script<R: Read, W: Write>(from: &mut R, to: &mut W) -> io::Result<()>
    ensures { OnOk result (IfSome (R.remaining from.old) (λ xs. Appends (W.contents to.old) (W.contents to.new) (printed_text (take (script_most + 1) xs)))) }
{
    let mut space = [0u8; SCRIPT];
    let n = input::read_full(from, &mut space)?;
    let mut page = [0u8; OUTCOME];
    let end = write_page(&space[..n], &mut page);
    to.write_all(&page[..end])
}

// What is printed of a script.
// Ruled out: a refusal without its line's end; a run with other sizes; a memory that is not of zeros.
fn write_page(script: &[u8], page: &mut [u8; OUTCOME]) -> usize
    ensures { Written 0 (printed_text script.now) page.old page.new result }
{
    let mut stack = [0u32; STACK];
    let mut execution = [0u32; EXECUTION];
    let mut memory = [0u32; MEMORY_SLOTS];
    let mut outcome = [0u8; OUTCOME];
    let answer = forf_runner::run(
        script,
        FUEL_MOST,
        &mut stack,
        &mut execution,
        &mut memory,
        &mut outcome,
    );
    write_answer(answer, &outcome, page)
}

// A refusal's line, or the start of the outcome.
fn write_answer(answer: Result<Report, Refusal>, outcome: &[u8], page: &mut [u8; OUTCOME]) -> usize
    requires { Within answer outcome.now }
    ensures { Written 0 (told answer outcome.now) page.old page.new result }
{
    match answer {
        Ok(report) => text::copy(page, 0, &outcome[..report.outcome]),
        Err(refusal) => match refusal.number() {
            Some(number) => text::write_number(page, 0, b"refused", number),
            None => text::copy(page, 0, b"refused=memory not 32 slots\n"),
        },
    }
}
