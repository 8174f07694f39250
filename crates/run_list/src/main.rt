// Runs scripts with the sizes that each names, to be compared with what the reference interpreter prints. On standard input a case is eight numbers of four
// bytes, the lowest first (fuel; the words of stack, execution stack, dictionary and cells; the bytes of log, outcome and script), and then the script.
#![tactic(auto)]

ghost use Rattle.std.specs.Prelude.{◌≤◌, ◌<◌, IfOk, IfSome};
ghost use Rattle.run_list.specs.Heads.{Fits, Within};

use runner::Report;
use semantics::{
    CELL_WIDTH, CELLS_MOST, DICTIONARY_MOST, DICTIONARY_WIDTH, EXEC_MOST, EXEC_WIDTH, HEAD_ROOM,
    ITEM_ROOM, LOG_MOST, SCRIPT_MOST, STACK_MOST, STACK_WIDTH,
};
use setup::Refusal;
use std::io;
use std::io::{Read, Write};

// One more than setup accepts of each, where a case asks for that.
const SCRIPT: usize = SCRIPT_MOST + 1;

const STACK: usize = STACK_WIDTH * (STACK_MOST + 1);

const EXECUTION: usize = EXEC_WIDTH * (EXEC_MOST + 1);

const DICTIONARY: usize = DICTIONARY_WIDTH * (DICTIONARY_MOST + 1);

const CELLS: usize = CELL_WIDTH * (CELLS_MOST + 1);

const LOG: usize = LOG_MOST + 1;

const OUTCOME: usize = HEAD_ROOM + ITEM_ROOM * STACK_MOST;

// Number i of a case's head.
fn number(head: &[u8; 32], i: usize) -> u32
    requires { i < 8 }
{
    let at = 4 * i;
    u32::from_le_bytes([head[at], head[at + 1], head[at + 2], head[at + 3]])
}

// Number i as a length, no longer than there is room for.
fn size(head: &[u8; 32], i: usize, most: usize) -> usize
    requires { i < 8 }
    ensures { result ≤ most }
{
    most.min(number(head, i) as usize)
}

// A case's head.
#[derive(Clone, Copy)]
struct Head {
    fuel: u32,
    stack: usize,
    exec: usize,
    dict: usize,
    cells: usize,
    log: usize,
    outcome: usize,
    script: usize,
}

// The next case's head, if there is one more.
fn read_head<R: Read>(from: &mut R) -> io::Result<Option<Head>>
    ensures { IfOk result (λ head. IfSome head Fits) }
{
    let mut head = [0u8; 32];
    if input::read_full(from, &mut head)? < head.len() {
        return Ok(None);
    }
    Ok(Some(head_of(&head)))
}

// What the bytes say.
fn head_of(head: &[u8; 32]) -> Head
    ensures { Fits result }
{
    Head {
        fuel: number(head, 0),
        stack: size(head, 1, STACK),
        exec: size(head, 2, EXECUTION),
        dict: size(head, 3, DICTIONARY),
        cells: size(head, 4, CELLS),
        log: size(head, 5, LOG),
        outcome: size(head, 6, OUTCOME),
        script: size(head, 7, SCRIPT),
    }
}

fn say_refusal<W: Write>(to: &mut W, refusal: u32) -> io::Result<()> {
    let mut line = [0u8; 32];
    let end = text::write_number(&mut line, 0, b"refused", refusal);
    to.write_all(&line[..end])
}

fn say_start<W: Write>(to: &mut W, text: &[u8], n: usize) -> io::Result<()> {
    if n <= text.len() {
        return to.write_all(&text[..n]);
    }
    Ok(())
}

fn say_answer<W: Write>(
    to: &mut W,
    answer: Result<Report, Refusal>,
    log: &[u8],
    outcome: &[u8],
) -> io::Result<()> {
    match answer {
        Err(refusal) => say_refusal(to, refusal.number())?,
        Ok(report) => {
            say_start(to, log, report.log)?;
            say_start(to, outcome, report.outcome)?;
        }
    }
    to.write_all(b"----\n")
}

fn run_case<W: Write>(
    to: &mut W,
    script: &[u8],
    head: Head,
    stack: &mut [u32],
    exec: &mut [u32],
    dict: &mut [u32],
    cells: &mut [u32],
    log: &mut [u8],
    outcome: &mut [u8],
) -> io::Result<()>
    requires { Within head stack.old exec.old dict.old cells.old log.old outcome.old }
{
    let a = head.stack;
    let b = head.exec;
    let c = head.dict;
    let d = head.cells;
    let e = head.log;
    let f = head.outcome;
    let answer = runner::run(
        script,
        head.fuel,
        &mut stack[..a],
        &mut exec[..b],
        &mut dict[..c],
        &mut cells[..d],
        &mut log[..e],
        &mut outcome[..f],
    );
    say_answer(to, answer, log, outcome)
}

// What lies in the buffers before a run is of no account, so they are full.
fn run_full<W: Write>(to: &mut W, script: &[u8], head: Head) -> io::Result<()>
    requires { Fits head }
{
    let mut stack = [0xFFFF_FFFFu32; STACK];
    let mut exec = [0xFFFF_FFFFu32; EXECUTION];
    let mut dict = [0xFFFF_FFFFu32; DICTIONARY];
    let mut cells = [0xFFFF_FFFFu32; CELLS];
    let mut log = [0xFFu8; LOG];
    let mut outcome = [0xFFu8; OUTCOME];
    run_case(
        to,
        script,
        head,
        &mut stack,
        &mut exec,
        &mut dict,
        &mut cells,
        &mut log,
        &mut outcome,
    )
}

// A script of so many bytes, if there are so many.
fn run_read<R: Read, W: Write>(
    from: &mut R,
    to: &mut W,
    script: &mut [u8],
    head: Head,
) -> io::Result<bool>
    requires { Fits head }
{
    if input::read_full(from, script)? < script.len() {
        return Ok(false);
    }
    run_full(to, script, head)?;
    Ok(true)
}

// The next case, if there is one.
fn run_next<R: Read, W: Write>(from: &mut R, to: &mut W, script: &mut [u8]) -> io::Result<bool> {
    let Some(head) = read_head(from)? else {
        return Ok(false);
    };
    let n = head.script;
    if script.len() < n {
        return Ok(false);
    }
    run_read(from, to, &mut script[..n], head)
}

// Nothing says that the input ends, so the turns are counted.
fn run_all<R: Read, W: Write>(from: &mut R, to: &mut W, script: &mut [u8]) -> io::Result<()> {
    for _ in 0..100_000 {
        if !run_next(from, to, script)? {
            break;
        }
    }
    Ok(())
}

fn main(rt: HostRuntime) -> io::Result<()> {
    let mut script = [0u8; SCRIPT];
    run_all(&mut rt.stdin(), &mut rt.stdout(), &mut script)
}
