// The book written for the buying office, by RFC 4180 (02, W11). The text is measured first; where it is longer than what is lent nothing is written. One set of
// emitters measures and writes: where it is not live it only counts. (A sink in place of `live` would be a trait with two impls, or an `Option<&mut [u8]>` that is
// lent again at each call: no plainer.)
#![tactic(auto)]

ghost use Rattle.std.specs.Prelude.{◌≡◌, true, [], ◌∷◌, ◌≤◌, length};
ghost use Rattle.std.specs.List.{list_any};
ghost use Rattle.semantics.specs.Text.{decimal};
ghost use Rattle.book.specs.Books.{is_sound};
ghost use Rattle.ledger.specs.Ledger.{is_special, doubled, field, ledger_text, entries_of};
ghost use Rattle.ledger_writer.specs.Emitting.{Emitted, Roomy, line_of, Writes};

use book::Record;

// Why a book is not written.
#[derive(Clone, Copy, PartialEq, Eq, Debug)]
pub enum WriteError {
    BookMalformed,
    TooShort,
}

// The book written into the lent text; the bytes of its text.
// Ruled out: a text cut short; bytes past the text changed; a malformed book written.
pub fn write(book: &[Record], count: usize, text: &mut [u8]) -> Result<usize, WriteError>
    ensures { Writes book.now count text.old text.new result }
{
    if !book::is_sound(book, count) {
        return Err(WriteError::BookMalformed);
    }
    let bytes = emit(book, count, text, false);
    if text.len() < bytes {
        return Err(WriteError::TooShort);
    }
    emit(book, count, text, true);
    Ok(bytes)
}

// ---- the whole text

// The header, and a line for each of the first `count` records.
fn emit(book: &[Record], count: usize, text: &mut [u8], live: bool) -> usize
    requires { (is_sound book.now count ≡ true) × (live ≡ true → length (ledger_text (entries_of book.now count)) ≤ length text.old) }
    ensures { Emitted live 0 (ledger_text (entries_of book.now count)) text.old text.new result }
{
    let mut at = begin(text, live);
    for i in 0..count {
        at = emit_line(book[i], text, at, live);
    }
    at
}

// The header's line.
fn begin(text: &mut [u8], live: bool) -> usize
    requires { Roomy live 0 (ledger_text []) text.old }
    ensures { Emitted live 0 (ledger_text []) text.old text.new result }
{
    if live {
        return text::copy(text, 0, b"socket,place,time\r\n");
    }
    19
}

// ---- one record

// A byte.
fn put(text: &mut [u8], at: usize, b: u8, live: bool) -> usize
    requires { Roomy live at (b ∷ []) text.old }
    ensures { Emitted live at (b ∷ []) text.old text.new result }
{
    if live {
        text[at] = b;
    }
    at + 1
}

// A number in decimal.
fn emit_number(text: &mut [u8], at: usize, n: u32, live: bool) -> usize
    requires { Roomy live at (decimal n) text.old }
    ensures { Emitted live at (decimal n) text.old text.new result }
{
    if live {
        return text::write_decimal(text, at, n);
    }
    at + text::decimal_length(n)
}

// A comma, a quote, CR or LF.
#[tactic(auto, unfolding(ledger::specs::Ledger::is_special))]
fn is_special(b: u8) -> bool
    ensures { result ≡ is_special b }
{
    matches!(b, b',' | b'"' | b'\r' | b'\n')
}

// Whether one of the bytes is such.
fn needs_quotes(place: &[u8]) -> bool
    ensures { result ≡ list_any is_special place.now }
{
    place.iter().any(|b| is_special(*b))
}

// A byte of a place, a quote twice.
fn emit_byte(text: &mut [u8], at: usize, b: u8, live: bool) -> usize
    requires { Roomy live at (doubled (b ∷ [])) text.old }
    ensures { Emitted live at (doubled (b ∷ [])) text.old text.new result }
{
    if b == b'"' {
        let second = put(text, at, b'"', live);
        return put(text, second, b'"', live);
    }
    put(text, at, b, live)
}

// The bytes of a place, each quote twice.
fn emit_doubled(text: &mut [u8], at: usize, place: &[u8], live: bool) -> usize
    requires { Roomy live at (doubled place.now) text.old }
    ensures { Emitted live at (doubled place.now) text.old text.new result }
{
    let mut next = at;
    for b in place {
        next = emit_byte(text, next, *b, live);
    }
    next
}

// A place, between quotes where it needs them.
// Ruled out: a quote that is not doubled; a place with a line break as it is.
fn emit_place(text: &mut [u8], at: usize, place: &[u8], live: bool) -> usize
    requires { Roomy live at (field place.now []) text.old }
    ensures { Emitted live at (field place.now []) text.old text.new result }
{
    if needs_quotes(place) {
        let inside = put(text, at, b'"', live);
        let close = emit_doubled(text, inside, place, live);
        return put(text, close, b'"', live);
    }
    emit_doubled(text, at, place, live)
}

// The end of a line.
fn emit_break(text: &mut [u8], at: usize, live: bool) -> usize
    requires { Roomy live at (13 ∷ 10 ∷ []) text.old }
    ensures { Emitted live at (13 ∷ 10 ∷ []) text.old text.new result }
{
    let second = put(text, at, b'\r', live);
    put(text, second, b'\n', live)
}

// A record's line: number, place and time, and CRLF.
fn emit_line(entry: Record, text: &mut [u8], at: usize, live: bool) -> usize
    requires { (entry.length ≤ 31) × Roomy live at (line_of entry) text.old }
    ensures { Emitted live at (line_of entry) text.old text.new result }
{
    let place = entry.place;
    let size = entry.length as usize;
    let first = emit_number(text, at, entry.number, live);
    let second = put(text, first, b',', live);
    let third = emit_place(text, second, &place[..size], live);
    let fourth = put(text, third, b',', live);
    let fifth = emit_number(text, fourth, entry.time, live);
    emit_break(text, fifth, live)
}
