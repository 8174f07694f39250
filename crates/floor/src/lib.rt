// The floor rule for late scans: a label is lent to a script, the script is run, and what it leaves on the stack goes into the lent book, unless it is late. The
// second library, on top of the runner.
#![tactic(auto)]

ghost use Rattle.std.specs.Prelude.{◌≡◌, None};
ghost use Rattle.semantics.specs.Text.{bytes};
ghost use Rattle.setup.specs.Lending.{lent_of, number_of};
ghost use Rattle.machine.specs.Rep.{Somewhere};
ghost use Rattle.floor.specs.declared.Answer.TheVariants.{Refused};
ghost use Rattle.floor.specs.Floor.{before, answer_for};
ghost use Rattle.floor.specs.Promise.{asked, Scans, before_of, Labelled, CarriesLabel, ReadsEntry, scanned_of, Nothing, is_finished};
ghost use Rattle.lending.specs.Lending as lending;

use book::{Entered, Fate, Record};
use ending::Ending;
use machine::{ITEM_PAYLOAD, Machine, TAG_INTEGER, TAG_STRING};
use runner::Report;
use semantics::{CELL_WIDTH, DICTIONARY_WIDTH, EXEC_WIDTH, NAME_COUNT, STACK_WIDTH};
use setup::{Lent, Refusal};

// A label has at most so many bytes, and a place; numbers and times are at most this.
const LABEL_MOST: usize = 512;

const PLACE_MOST: usize = 31;

const GREATEST: u32 = 2147483647;

// What a scan came to: a refusal of setup by its number, or by its name; the place in the book where a record was replaced or added.
#[derive(Clone, Copy, PartialEq, Eq, Debug)]
pub enum Answer {
    Refused(u32),
    BookMalformed,
    LabelTooLong,
    NoSlot,
    NoCells,
    NotFinished,
    BadStack,
    Late,
    NoRoom,
    Replaced(usize),
    Added(usize),
}

// The answer, what is reported of the run, all zero where none was made, and how many records the book has after it.
#[derive(Clone, Copy)]
pub struct Scanned {
    pub answer: Answer,
    pub report: Report,
    pub count: usize,
}

// What the run left for the book: an entry, or none, and then the answer.
#[derive(Clone, Copy)]
pub struct Ran {
    pub answer: Answer,
    pub report: Report,
    pub entry: Option<Record>,
}

impl From<Refusal> for Answer {
    ghost from_gives = { λ r a. a ≡ Refused (number_of r) };

    fn from(refusal: Refusal) -> Answer {
        Answer::Refused(refusal.number())
    }
}

// A scan: the label is lent, the script is run, and its entry goes into the book.
// Ruled out: a late scan that replaces; a record changed that is not this socket's; a lent byte changed by a refusal before the run.
pub fn scan(
    script: &[u8],
    fuel: u32,
    label: &[u8],
    stack: &mut [u32],
    exec: &mut [u32],
    dict: &mut [u32],
    cells: &mut [u32],
    log: &mut [u8],
    outcome: &mut [u8],
    book: &mut [Record],
    count: usize,
) -> Scanned
    ensures { Scans (asked script.now fuel label.now stack.old exec.old dict.old cells.old log.old outcome.old) book.old book.new count stack.old stack.new exec.old exec.new dict.old dict.new cells.old cells.new log.old log.new outcome.old outcome.new result }
{
    let sound = book::is_sound(book, count);
    let ran = run_labelled(
        script, fuel, label, sound, stack, exec, dict, cells, log, outcome,
    );
    let entered = book::enter(book, count, ran.entry);
    answered(ran, entered, count)
}

// The run with the label lent, unless something is refused before it.
// Ruled out: a bad book looked at before setup; a run without room for the label; a word past whole slots written.
pub fn run_labelled(
    script: &[u8],
    fuel: u32,
    label: &[u8],
    sound: bool,
    stack: &mut [u32],
    exec: &mut [u32],
    dict: &mut [u32],
    cells: &mut [u32],
    log: &mut [u8],
    outcome: &mut [u8],
) -> Ran
    ensures { Labelled (asked script.now fuel label.now stack.old exec.old dict.old cells.old log.old outcome.old) sound stack.old stack.new exec.old exec.new dict.old dict.new cells.old cells.new log.old log.new outcome.old outcome.new result }
{
    let lent = Lent {
        stack: stack.len(),
        exec: exec.len(),
        dict: dict.len(),
        cells: cells.len(),
        log: log.len(),
        outcome: outcome.len(),
    };
    match check(script, fuel, label, sound, lent) {
        Err(answer) => refused(answer),
        Ok(()) => {
            // words past whole slots are not lent on
            let a = stack.len() / STACK_WIDTH * STACK_WIDTH;
            let b = exec.len() / EXEC_WIDTH * EXEC_WIDTH;
            let c = dict.len() / DICTIONARY_WIDTH * DICTIONARY_WIDTH;
            let d = cells.len() / CELL_WIDTH * CELL_WIDTH;
            carry_label(
                script,
                fuel,
                label,
                &mut stack[..a],
                &mut exec[..b],
                &mut dict[..c],
                &mut cells[..d],
                log,
                outcome,
            )
        }
    }
}

// What is refused before the run, in the paper's order.
// Ruled out: the label judged before the book; a label of 513 bytes; a label without a slot of its own.
fn check(script: &[u8], fuel: u32, label: &[u8], sound: bool, lent: Lent) -> Result<(), Answer>
    ensures { before_of result ≡ before (record { script = script.now; fuel = fuel; label = label.now; lent = lent_of lent }) sound }
{
    setup::check(script, fuel, lent)?;
    if !sound {
        return Err(Answer::BookMalformed);
    }
    if LABEL_MOST < label.len() {
        return Err(Answer::LabelTooLong);
    }
    if lent.dict / DICTIONARY_WIDTH < NAME_COUNT + 1 {
        return Err(Answer::NoSlot);
    }
    if lent.cells / CELL_WIDTH < (label.len() + 7) / 8 + 1 {
        return Err(Answer::NoCells);
    }
    Ok(())
}

// The run with whole slots, and the entry that it leaves.
fn carry_label(
    script: &[u8],
    fuel: u32,
    label: &[u8],
    stack: &mut [u32],
    exec: &mut [u32],
    dict: &mut [u32],
    cells: &mut [u32],
    log: &mut [u8],
    outcome: &mut [u8],
) -> Ran
    requires { lending.Ready script.now fuel (bytes "label") label.now stack.old exec.old dict.old cells.old log.old outcome.old }
    ensures { CarriesLabel script.now fuel label.now stack.old stack.new exec.old exec.new dict.old dict.new cells.old cells.new log.old log.new outcome.old outcome.new result }
{
    let done = lending::carry_out(
        script, fuel, b"label", label, stack, exec, dict, cells, log, outcome,
    );
    let report = done.report;
    if !is_final(done.ending) {
        return Ran {
            answer: Answer::NotFinished,
            report,
            entry: None,
        };
    }
    let st = done.state;
    let entry = read_entry(st.machine, stack, cells);
    Ran {
        answer: Answer::BadStack,
        report,
        entry,
    }
}

// The entry that the stack's items are: a socket number, a place and a scan time, from the bottom, and no more.
// Ruled out: a number below 0; an empty place; a place of 32 bytes; bytes after its length that are not 0.
fn read_entry(m: Machine, stack: &[u32], cells: &[u32]) -> Option<Record>
    requires { Somewhere m stack.now cells.now }
    ensures { ReadsEntry m stack.now cells.now result }
{
    if m.depth != 3 {
        return None;
    }
    if elements::tag_of(m, stack, 0) != TAG_INTEGER {
        return None;
    }
    if elements::tag_of(m, stack, 1) != TAG_STRING {
        return None;
    }
    if elements::tag_of(m, stack, 2) != TAG_INTEGER {
        return None;
    }
    let number = stack[ITEM_PAYLOAD];
    let time = stack[2 * STACK_WIDTH + ITEM_PAYLOAD];
    if GREATEST < number {
        return None;
    }
    if GREATEST < time {
        return None;
    }
    let size = strings::current_length(m, stack, cells, 1);
    if size < 1 {
        return None;
    }
    if PLACE_MOST < size as usize {
        return None;
    }
    let mut place = [0u8; PLACE_MOST];
    strings::read_bytes(m, stack, cells, 1, size, &mut place);
    Some(Record {
        number,
        place,
        length: size,
        time,
    })
}

fn is_final(ending: Ending) -> bool
    ensures { result ≡ is_finished ending }
{
    matches!(ending, Ending::Finished)
}

// No run is made.
fn refused(answer: Answer) -> Ran
    ensures { (result.answer ≡ answer) × (result.entry ≡ None) × Nothing result.report }
{
    let machine = Machine {
        depth: 0,
        frames: 0,
        names: 0,
        written: 0,
        lists: heap::fresh(),
        stopped: false,
    };
    Ran {
        answer,
        report: Report {
            steps: 0,
            log: 0,
            outcome: 0,
            machine,
        },
        entry: None,
    }
}

// The answer, given what became of the entry.
fn answered(ran: Ran, entered: Option<Entered>, count: usize) -> Scanned
    ensures { result ≡ scanned_of ran entered count }
{
    let report = ran.report;
    match entered {
        Some(entered) => Scanned {
            answer: answer_for(entered.fate, entered.at),
            report,
            count: entered.count,
        },
        None => Scanned {
            answer: ran.answer,
            report,
            count,
        },
    }
}

fn answer_for(fate: Fate, at: usize) -> Answer
    ensures { result ≡ answer_for fate at }
{
    match fate {
        Fate::Replaces => Answer::Replaced(at),
        Fate::Adds => Answer::Added(at),
        Fate::Late => Answer::Late,
        Fate::Full => Answer::NoRoom,
    }
}
