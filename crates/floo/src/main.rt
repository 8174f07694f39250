// The program: a script on standard input is run with the sizes of the scope paper. Printed are its log and then its outcome, or the number of the refusal.
// What is written of what is read is proved, for any reader and writer; that the bytes are those of standard input and go to standard output is not, since no contract can say it.
#![tactic(auto)]

ghost use Rattle.std.specs.Prelude.{◌+◌, IfSome, OnOk, take};
ghost use Rattle.std.specs.Io.KnownBytes.{Appends};
ghost use Rattle.semantics.specs.Sizes.{script_most};
ghost use Rattle.semantics.specs.Setup.{printed};
ghost use Rattle.text.specs.Writing.{Written};
ghost use Rattle.floo.specs.Sizes.{fuel, sizes};
ghost use Rattle.floo.specs.Telling.{Within, told};

use runner::Report;
use semantics::{
    CELL_WIDTH, DICTIONARY_MOST, DICTIONARY_WIDTH, EXEC_MOST, EXEC_WIDTH, FUEL_MOST, HEAD_ROOM,
    ITEM_ROOM, SCRIPT_MOST, STACK_MOST, STACK_WIDTH,
};
use setup::Refusal;
use std::io;
use std::io::{Read, Write};

// The longest script and one byte more, so that a longer one is refused and not cut.
const SCRIPT: usize = SCRIPT_MOST + 1;

// As many slots as are accepted and 4,096 cells, in words.
const STACK: usize = STACK_WIDTH * STACK_MOST;

const EXECUTION: usize = EXEC_WIDTH * EXEC_MOST;

const DICTIONARY: usize = DICTIONARY_WIDTH * DICTIONARY_MOST;

const CELLS: usize = CELL_WIDTH * 4096;

const LOG: usize = 8192;

const OUTCOME: usize = HEAD_ROOM + ITEM_ROOM * STACK_MOST;

// A log and an outcome.
const PAGE: usize = LOG + OUTCOME;

fn main(rt: HostRuntime) -> io::Result<()> {
    run_script(&mut rt.stdin(), &mut rt.stdout())
}

// The bytes of the reader are a script, and what is printed of it goes to the writer.
// Ruled out: a script that is cut to what may be run; a byte before or after what is printed.
fn run_script<R: Read, W: Write>(from: &mut R, to: &mut W) -> io::Result<()>
    ensures { OnOk result (IfSome (R.remaining from.old) (λ xs. Appends (W.contents to.old) (W.contents to.new) (printed (take (script_most + 1) xs) fuel sizes))) }
{
    let mut space = [0u8; SCRIPT];
    let n = input::read_full(from, &mut space)?;
    let mut page = [0u8; PAGE];
    let end = write_page(&space[..n], &mut page);
    to.write_all(&page[..end])
}

// What is printed of a script.
// Ruled out: the outcome before the log; a refusal without its line's end; a run with other sizes.
fn write_page(script: &[u8], page: &mut [u8; PAGE]) -> usize
    ensures { Written 0 (printed script.now fuel sizes) page.old page.new result }
{
    let mut stack = [0u32; STACK];
    let mut execution = [0u32; EXECUTION];
    let mut dictionary = [0u32; DICTIONARY];
    let mut cells = [0u32; CELLS];
    let mut log = [0u8; LOG];
    let mut outcome = [0u8; OUTCOME];
    let answer = runner::run(
        script,
        FUEL_MOST,
        &mut stack,
        &mut execution,
        &mut dictionary,
        &mut cells,
        &mut log,
        &mut outcome,
    );
    write_answer(answer, &log, &outcome, page)
}

// A refusal's line, or the start of the log and the start of the outcome.
fn write_answer(
    answer: Result<Report, Refusal>,
    log: &[u8],
    outcome: &[u8],
    page: &mut [u8; PAGE],
) -> usize
    requires { Within answer log.now outcome.now }
    ensures { Written 0 (told answer log.now outcome.now) page.old page.new result }
{
    match answer {
        Err(refusal) => text::write_number(page, 0, b"refused", refusal.number()),
        Ok(report) => {
            let logged = report.log;
            let written = report.outcome;
            let next = text::copy(page, 0, &log[..logged]);
            text::copy(page, next, &outcome[..written])
        }
    }
}
