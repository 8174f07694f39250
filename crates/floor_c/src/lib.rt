// The floor rule for programs in C and Rust: one exported function, which include/floor.h declares. A slice is a pointer and a length there.
#![tactic(auto)]

ghost use Rattle.std.specs.Prelude.{◌≡◌};
ghost use Rattle.floor.specs.Promise.{asked};
ghost use Rattle.floor_c.specs.Reply.{Replies, reply_of, answer_number, refused_number, place_number};

use book::Record;
use floor::{Answer, Scanned};

// The answer by its number, the number of setup's refusal, what the run came to, how many records the book has, and the place of the one that was written; 0 where
// there is none.
#[repr(C)]
#[derive(Clone, Copy)]
pub struct Reply {
    pub answer: u32,
    pub refused: u32,
    pub steps: u32,
    pub log: usize,
    pub outcome: usize,
    pub count: usize,
    pub at: usize,
}

// A scan: the label is lent, the script is run, and its entry goes into the book.
// Ruled out: one answer told as another; the counts exchanged.
#[unsafe(no_mangle)]
pub extern "C" fn floor_scan(
    script: &[u8],
    fuel: u32,
    label: &[u8],
    stack: &mut [u32],
    execution: &mut [u32],
    dictionary: &mut [u32],
    cells: &mut [u32],
    log: &mut [u8],
    outcome: &mut [u8],
    book: &mut [Record],
    count: usize,
) -> Reply
    ensures { Replies (asked script.now fuel label.now stack.old execution.old dictionary.old cells.old log.old outcome.old) book.old book.new count stack.old stack.new execution.old execution.new dictionary.old dictionary.new cells.old cells.new log.old log.new outcome.old outcome.new result }
{
    let scanned = floor::scan(
        script, fuel, label, stack, execution, dictionary, cells, log, outcome, book, count,
    );
    reply_of(scanned)
}

// What is told of a scan.
fn reply_of(scanned: Scanned) -> Reply
    ensures { result ≡ reply_of scanned }
{
    let answer = scanned.answer;
    let report = scanned.report;
    Reply {
        answer: answer_number(answer),
        refused: refused_number(answer),
        steps: report.steps,
        log: report.log,
        outcome: report.outcome,
        count: scanned.count,
        at: place_number(answer),
    }
}

// An answer by its number: C has no name for the enum.
fn answer_number(answer: Answer) -> u32
    ensures { result ≡ answer_number answer }
{
    match answer {
        Answer::Refused(_) => 1,
        Answer::BookMalformed => 2,
        Answer::LabelTooLong => 3,
        Answer::NoSlot => 4,
        Answer::NoCells => 5,
        Answer::NotFinished => 6,
        Answer::BadStack => 7,
        Answer::Late => 8,
        Answer::NoRoom => 9,
        Answer::Replaced(_) => 10,
        Answer::Added(_) => 11,
    }
}

// The number of setup's refusal; 0 where it accepts.
fn refused_number(answer: Answer) -> u32
    ensures { result ≡ refused_number answer }
{
    match answer {
        Answer::Refused(number) => number,
        _ => 0,
    }
}

// The place of the record that was written; 0 where none was.
fn place_number(answer: Answer) -> usize
    ensures { result ≡ place_number answer }
{
    match answer {
        Answer::Replaced(at) => at,
        Answer::Added(at) => at,
        _ => 0,
    }
}
