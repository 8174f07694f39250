// The fields of a ledger's text, one after another: the reading machine of the definition, byte by byte.
#![tactic(auto)]

ghost use Rattle.std.specs.Prelude.{◌≡◌, ◌≤◌, length, drop};
ghost use Rattle.ledger.specs.Reading as reading;
ghost use Rattle.ledger.specs.Pieces as pieces;
ghost use Rattle.ledger_fields.specs.Fields.{mode_is, act_is, close_is, grown_by, summed_by, placed_by, taken_by, unseen, FieldAt};

// Where the next byte stands: at the start of a line, after a comma, in a field without quotes, between quotes, after a quote that closes
// the field or is the first of two, after a CR outside quotes.
#[derive(Clone, Copy, PartialEq, Eq, Debug)]
pub enum Mode {
    Fresh,
    Begins,
    Plain,
    Quoted,
    Closing,
    Returned,
}

// What the next byte does: it is the field's next byte, without quotes or between them; it opens a quoted field, closes it or is the first of two quotes, or is a CR
// outside quotes; it ends the field or the line; or it is bad. No variant holds a mode, so that the compiler leads each straight to its arm.
#[derive(Clone, Copy, PartialEq, Eq, Debug)]
pub enum Act {
    KeepPlain,
    KeepQuoted,
    Open,
    Shut,
    Return,
    EndField,
    EndLine,
    Bad,
}

// What closes a field: a comma, CRLF, the end, the end where no line has begun; or bad quoting.
#[derive(Clone, Copy, PartialEq, Eq, Debug)]
pub enum Close {
    Comma,
    Line,
    End,
    Over,
    Wrong,
}

// What is kept of a field's bytes: how many there are, 32 standing for more than 31; the number that they write, 2147483648 standing for any greater; whether all are
// digits; and the first 31 of them.
#[derive(Clone, Copy, PartialEq, Eq, Debug)]
pub struct Seen {
    pub size: u32,
    pub number: u32,
    pub digits: bool,
    pub place: [u8; 31],
}

impl Seen {
    // Nothing yet.
    fn new() -> Seen
        ensures { result ≡ unseen }
    {
        Seen {
            size: 0,
            number: 0,
            digits: true,
            place: [0; 31],
        }
    }

    // A byte more. The place is changed where it is: a copy for each byte would take most of the time.
    #[tactic(auto, unfolding(crate::specs::Fields::taken_by))]
    fn take(&mut self, b: u8)
        ensures { self.new ≡ taken_by self.old b }
    {
        keep(&mut self.place, self.size, b);
        self.size = grown(self.size);
        self.number = summed(self.number, b);
        self.digits = self.digits && b.is_ascii_digit();
    }
}

// What is kept of a field, the offset after what closes it, and what that is.
#[derive(Clone, Copy, PartialEq, Eq, Debug)]
pub struct Field {
    pub seen: Seen,
    pub next: usize,
    pub close: Close,
}

#[tactic(auto, unfolding(crate::specs::Fields::grown_by))]
fn grown(size: u32) -> u32
    ensures { result ≡ grown_by size }
{
    if size < 32 { size + 1 } else { 32 }
}

// Ruled out: a number that wraps around; digits that are cut off after ten.
#[tactic(auto, unfolding(crate::specs::Fields::summed_by))]
fn summed(number: u32, b: u8) -> u32
    ensures { result ≡ summed_by number b }
{
    if !b.is_ascii_digit() {
        return number;
    }
    if number <= 214748364 {
        number * 10 + (b - b'0') as u32
    } else {
        2147483648
    }
}

// A byte of the field is put where it belongs, if it is one of the first 31.
#[tactic(auto, unfolding(crate::specs::Fields::placed_by))]
fn keep(place: &mut [u8; 31], size: u32, b: u8)
    ensures { place.new ≡ placed_by place.old size b }
{
    if size < 31 {
        place[size as usize] = b;
    }
}

#[tactic(auto, unfolding(ledger::specs::Reading::closed_act))]
fn closed_act(b: u8) -> Act
    ensures { act_is result ≡ reading.closed_act b }
{
    match b {
        b',' => Act::EndField,
        b'\r' => Act::Return,
        _ => Act::Bad,
    }
}

#[tactic(auto, unfolding(ledger::specs::Reading::plain_act))]
fn plain_act(b: u8) -> Act
    ensures { act_is result ≡ reading.plain_act b }
{
    match b {
        b',' => Act::EndField,
        b'\r' => Act::Return,
        b'"' | b'\n' => Act::Bad,
        _ => Act::KeepPlain,
    }
}

#[tactic(auto, unfolding(ledger::specs::Reading::first_act))]
fn first_act(b: u8) -> Act
    ensures { act_is result ≡ reading.first_act b }
{
    match b {
        b'"' => Act::Open,
        _ => plain_act(b),
    }
}

#[tactic(auto, unfolding(ledger::specs::Reading::act))]
fn quoted_act(b: u8) -> Act
    ensures { act_is result ≡ reading.act reading.quoted b }
{
    match b {
        b'"' => Act::Shut,
        _ => Act::KeepQuoted,
    }
}

#[tactic(auto, unfolding(ledger::specs::Reading::act))]
fn closing_act(b: u8) -> Act
    ensures { act_is result ≡ reading.act reading.closing b }
{
    match b {
        b'"' => Act::KeepQuoted,
        _ => closed_act(b),
    }
}

#[tactic(auto, unfolding(ledger::specs::Reading::act))]
fn returned_act(b: u8) -> Act
    ensures { act_is result ≡ reading.act reading.returned b }
{
    match b {
        b'\n' => Act::EndLine,
        _ => Act::Bad,
    }
}

#[tactic(auto, unfolding(ledger::specs::Reading::act))]
fn act_on(mode: Mode, b: u8) -> Act
    ensures { act_is result ≡ reading.act (mode_is mode) b }
{
    match mode {
        Mode::Fresh | Mode::Begins => first_act(b),
        Mode::Plain => plain_act(b),
        Mode::Quoted => quoted_act(b),
        Mode::Closing => closing_act(b),
        Mode::Returned => returned_act(b),
    }
}

#[tactic(auto, unfolding(ledger::specs::Pieces::close_at))]
fn close_at(mode: Mode) -> Close
    ensures { close_is result ≡ pieces.close_at (mode_is mode) }
{
    match mode {
        Mode::Fresh => Close::Over,
        Mode::Begins | Mode::Plain | Mode::Closing => Close::End,
        Mode::Quoted | Mode::Returned => Close::Wrong,
    }
}

// The field at `at`, which is read from there on in this mode.
pub fn field_at(text: &[u8], at: usize, mode: Mode) -> Field
    requires { at ≤ length text.now }
    ensures { FieldAt text.now at mode result }
{
    let mut seen = Seen::new();
    let mut here = mode;
    for i in at..text.len() {
        let b = text[i];
        match act_on(here, b) {
            Act::KeepPlain => {
                seen.take(b);
                here = Mode::Plain;
            }
            Act::KeepQuoted => {
                seen.take(b);
                here = Mode::Quoted;
            }
            Act::Open => here = Mode::Quoted,
            Act::Shut => here = Mode::Closing,
            Act::Return => here = Mode::Returned,
            Act::EndField => {
                return Field {
                    seen,
                    next: i + 1,
                    close: Close::Comma,
                };
            }
            Act::EndLine => {
                return Field {
                    seen,
                    next: i + 1,
                    close: Close::Line,
                };
            }
            Act::Bad => {
                return Field {
                    seen,
                    next: i,
                    close: Close::Wrong,
                };
            }
        }
    }
    Field {
        seen,
        next: text.len(),
        close: close_at(here),
    }
}

// Whether the quoting of the text from `start` on, where a line may begin, is good.
pub fn quoting_ok(text: &[u8], start: usize) -> bool
    requires { start ≤ length text.now }
    ensures { result ≡ pieces.is_there (reading.read_from reading.fresh (drop start text.now)) }
{
    let mut at = start;
    let mut mode = Mode::Fresh;
    // a field ends where it ends: no slice to go over
    loop {
        let f = field_at(text, at, mode);
        at = f.next;
        mode = match f.close {
            Close::Comma => Mode::Begins,
            Close::Line => Mode::Fresh,
            Close::End | Close::Over => return true,
            Close::Wrong => return false,
        };
    }
}
