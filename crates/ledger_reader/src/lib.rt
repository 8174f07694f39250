// The book read back from the buying office's text, by RFC 4180 (02, W11). The whole text is judged first, in the paper's order; only an accepted one is filled into the book.
#![tactic(auto)]

ghost use Rattle.std.specs.Prelude.{◌≡◌, true, ◌≤◌, length, drop, Some, Err};
ghost use Rattle.book.specs.Books.{is_place_length, is_in};
ghost use Rattle.ledger.specs.Reading.{fresh, read_from};
ghost use Rattle.ledger.specs.Pieces.{is_there};
ghost use Rattle.ledger.specs.Fronts as fronts;
ghost use Rattle.ledger.specs.Stages as stages;
ghost use Rattle.ledger_fields.specs.Fields.{close_is};
ghost use Rattle.ledger_reader.specs.Lines.{rank_of, rank_told, is_number, record_by, LineAt, Tallied, Rests, MeetsIn, OnceIn, Fillable, Fills};
ghost use Rattle.ledger_reader.specs.declared.Flaw.TheVariants.{FieldCount};
ghost use Rattle.ledger_reader.specs.Judging.{error_for, Headed, Judges, Reads};

use book::{GREATEST, PLACE_MOST, RECORDS_MOST, Record};
use ledger_fields::{Close, Mode, Seen};

// Why a text is refused.
#[derive(Clone, Copy, PartialEq, Eq, Debug)]
pub enum LedgerError {
    BadHeader,
    BadQuoting,
    FieldCount,
    BadNumber,
    BadPlace,
    SocketTwice,
    TooMany,
}

// What is wrong with a line: it has not three fields, a number is bad, or the place is. The first that applies to any line is told of the text.
#[derive(Clone, Copy, PartialEq, Eq, Debug)]
pub enum Flaw {
    FieldCount,
    BadNumber,
    BadPlace,
}

// Where the first line begins, and how many records are to be filled in.
#[derive(Clone, Copy, PartialEq, Eq, Debug)]
pub struct Judged {
    pub start: usize,
    pub count: usize,
}

// A line: its record, or what is wrong with it, and where the next begins.
#[derive(Clone, Copy, PartialEq, Eq, Debug)]
pub struct Line {
    pub entry: Result<Record, Flaw>,
    pub next: usize,
}

// An accepted text's records replace the book; lent records past them stay. How many there are is told. A refusal changes nothing.
// Ruled out: a record past the count changed; a book half filled by a text that is refused.
pub fn read(text: &[u8], book: &mut [Record]) -> Result<usize, LedgerError>
    ensures { Reads text.now book.old book.new result }
{
    let judged = judge(text, book::room_of(book.len()))?;
    fill(book, text, judged.start, judged.count);
    Ok(judged.count)
}

// ---- the book

// The first `count` of the records from `start` on go to the first places of the book.
fn fill(book: &mut [Record], text: &[u8], start: usize, count: usize)
    requires { Fillable text.now start count book.old }
    ensures { Fills text.now start book.old book.new }
{
    let mut at = start;
    for i in 0..count {
        // there are as many lines, and none has a flaw
        let Some(line) = line_at(text, at) else {
            return;
        };
        let Ok(entry) = line.entry else {
            return;
        };
        book::replace(book, i, entry);
        at = line.next;
    }
}

// ---- one line

fn is_over(close: Close) -> bool
    ensures { result ≡ fronts.is_over (close_is close) }
{
    matches!(close, Close::Over)
}

fn is_comma(close: Close) -> bool
    ensures { result ≡ fronts.is_comma (close_is close) }
{
    matches!(close, Close::Comma)
}

// Ruled out: a limit of 2147483648; an empty field for 0.
#[tactic(auto, unfolding(crate::specs::Lines::is_number))]
fn is_number(seen: Seen) -> bool
    ensures { result ≡ is_number seen }
{
    1 <= seen.size && seen.digits && seen.number <= GREATEST
}

#[tactic(auto, unfolding(book::specs::Books::is_place_length))]
fn is_place(size: u32) -> bool
    ensures { result ≡ is_place_length size }
{
    (1..=PLACE_MOST).contains(&size)
}

// The record of a line of these three fields.
#[tactic(auto, unfolding(crate::specs::Lines::record_by))]
fn record_of(first: Seen, second: Seen, third: Seen) -> Result<Record, Flaw>
    ensures { result ≡ record_by first second third }
{
    if !is_number(first) || !is_number(third) {
        return Err(Flaw::BadNumber);
    }
    if !is_place(second.size) {
        return Err(Flaw::BadPlace);
    }
    let place = second.place;
    Ok(Record {
        number: first.number,
        place,
        length: second.size,
        time: third.number,
    })
}

// A line that has not three fields: none is looked for after it.
fn uneven(at: usize) -> Option<Line>
    ensures { result ≡ Some (record { entry = Err FieldCount; next = at }) }
{
    Some(Line {
        entry: Err(Flaw::FieldCount),
        next: at,
    })
}

// The line at `at`, where one may begin.
pub fn line_at(text: &[u8], at: usize) -> Option<Line>
    requires { at ≤ length text.now }
    ensures { LineAt text.now at result }
{
    let first = ledger_fields::field_at(text, at, Mode::Fresh);
    if is_over(first.close) {
        return None;
    }
    if !is_comma(first.close) {
        return uneven(at);
    }
    let second = ledger_fields::field_at(text, first.next, Mode::Begins);
    if !is_comma(second.close) {
        return uneven(at);
    }
    let third = ledger_fields::field_at(text, second.next, Mode::Begins);
    if is_comma(third.close) {
        return uneven(at);
    }
    Some(Line {
        entry: record_of(first.seen, second.seen, third.seen),
        next: third.next,
    })
}

// ---- the lines from a place on

// Of two flaws the one that is told.
#[tactic(auto, unfolding(ledger::specs::Stages::lesser))]
fn worse(a: Option<Flaw>, b: Flaw) -> Flaw
    ensures { rank_of result ≡ stages.lesser (rank_told a) (rank_of b) }
{
    match (a, b) {
        (Some(Flaw::FieldCount), _) | (_, Flaw::FieldCount) => Flaw::FieldCount,
        (Some(Flaw::BadNumber), _) | (_, Flaw::BadNumber) => Flaw::BadNumber,
        _ => Flaw::BadPlace,
    }
}

// How many lines there are, or the flaw that is told of them. After a line that has not three fields no other is looked at: none has a worse flaw.
// Ruled out: a bad number told before a wrong field count in a later line.
fn tally_lines(text: &[u8], start: usize) -> Result<usize, Flaw>
    requires { (start ≤ length text.now) × (is_there (read_from fresh (drop start text.now)) ≡ true) }
    ensures { Tallied text.now start result }
{
    let mut at = start;
    let mut worst = None;
    let mut count = 0;
    while let Some(line) = line_at(text, at) {
        if let Err(flaw) = line.entry {
            match flaw {
                Flaw::FieldCount => return Err(Flaw::FieldCount),
                _ => worst = Some(worse(worst, flaw)),
            }
        }
        count += 1;
        at = line.next;
    }
    match worst {
        Some(flaw) => Err(flaw),
        None => Ok(count),
    }
}

// Whether a number is among these.
fn is_among(numbers: &[u32], number: u32) -> bool
    ensures { result ≡ is_in number numbers.now }
{
    numbers.contains(&number)
}

// Whether a record's number is among these.
fn meets(text: &[u8], start: usize, numbers: &[u32]) -> bool
    requires { Rests text.now start }
    ensures { MeetsIn text.now start numbers.now result }
{
    let mut at = start;
    while let Some(line) = line_at(text, at) {
        // no line of records has a flaw
        let Ok(entry) = line.entry else {
            return false;
        };
        if is_among(numbers, entry.number) {
            return true;
        }
        at = line.next;
    }
    false
}

// Whether no two records have one number. Numbers are kept to be compared with the next ones; once 64 are kept, all that are left are compared with them, and they go.
// So a text of as many records as fit is gone through once.
// Ruled out: a number that is not compared with those before the last 64.
fn is_once(text: &[u8], start: usize) -> bool
    requires { Rests text.now start }
    ensures { OnceIn text.now start result }
{
    let mut at = start;
    let mut kept = [0; RECORDS_MOST];
    let mut n = 0;
    while let Some(line) = line_at(text, at) {
        // no line of records has a flaw
        let Ok(entry) = line.entry else {
            return false;
        };
        if is_among(&kept[..n], entry.number) {
            return false;
        }
        if n == RECORDS_MOST {
            if meets(text, at, &kept) {
                return false;
            }
            n = 0;
        }
        kept[n] = entry.number;
        n += 1;
        at = line.next;
    }
    true
}

// ---- the whole text

// Where the first line begins, if the header is good.
// Ruled out: a header with LF alone; a header in quotes.
fn header_end(text: &[u8]) -> Option<usize>
    ensures { Headed text.now result }
{
    let rest = text.strip_prefix(b"socket,place,time")?;
    if rest.is_empty() {
        return Some(17);
    }
    if rest.starts_with(b"\r\n") {
        return Some(19);
    }
    None
}

impl From<Flaw> for LedgerError {
    ghost from_gives = { λ f e. e ≡ error_for f };

    fn from(flaw: Flaw) -> LedgerError {
        match flaw {
            Flaw::FieldCount => LedgerError::FieldCount,
            Flaw::BadNumber => LedgerError::BadNumber,
            Flaw::BadPlace => LedgerError::BadPlace,
        }
    }
}

// Each refusal is looked for in the whole text before the next.
// Ruled out: a socket twice told before a place of 32 bytes; records that are not looked at since more are there than fit.
fn judge(text: &[u8], room: usize) -> Result<Judged, LedgerError>
    ensures { Judges room text.now result }
{
    let Some(start) = header_end(text) else {
        return Err(LedgerError::BadHeader);
    };
    if !ledger_fields::quoting_ok(text, start) {
        return Err(LedgerError::BadQuoting);
    }
    let count = tally_lines(text, start)?;
    if !is_once(text, start) {
        return Err(LedgerError::SocketTwice);
    }
    if room < count {
        return Err(LedgerError::TooMany);
    }
    Ok(Judged { start, count })
}
