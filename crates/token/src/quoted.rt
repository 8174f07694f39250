// Strings: the machine that reads escapes byte by byte, a string judged whole, and its bytes given one by one.
ghost use Rattle.std.specs.Prelude.{◌≡◌, cond, List, ℕ, ◌+◌, ◌*◌, ◌<◌, ◌≤◌, length};
ghost use Rattle.semantics.specs.Tokens as tokens;
ghost use Rattle.token.specs.Strings.{met_is, act_is, Small, PieceAt, JudgedAt, StringAt, Unescapes};

use crate::bytes::{is_break, is_octal, within};

// What the reading of a string has just met: nothing, a backslash, a backslash and CR, or a backslash and one or two octal digits.
#[derive(Clone, Copy, PartialEq, Eq, Debug)]
pub enum Met {
    Nothing,
    Backslash,
    Return,
    Digit(u8),
    Digits(u8, u8),
}

// What the next byte does.
#[derive(Clone, Copy, PartialEq, Eq, Debug)]
pub enum Act {
    Byte(u8),
    Go(Met),
    Close,
    Cut,
    Bad,
}

// What comes next in a string: a byte and the offset after it, or its closing quote and the offset after that.
#[derive(Clone, Copy, PartialEq, Eq, Debug)]
pub enum Piece {
    Byte(u8, usize),
    Closed(usize),
}

// What is wrong with a string: a line break or the end too early, or a byte with which no escape goes on, by its offset.
#[derive(Clone, Copy, PartialEq, Eq, Debug)]
pub enum StringFault {
    Cut,
    Bad(usize),
}

// Outside an escape.
fn plain_act(b: u8) -> Act
    ensures { act_is result ≡ tokens.plain_act b }
{
    if b == b'"' {
        return Act::Close;
    }
    if b == 92 {
        return Act::Go(Met::Backslash);
    }
    if is_break(b) {
        return Act::Cut;
    }
    Act::Byte(b)
}

// After a backslash.
fn escape_act(b: u8) -> Act
    ensures { act_is result ≡ tokens.act tokens.backslash b }
{
    if b == b'n' {
        return Act::Byte(10);
    }
    if b == b'"' {
        return Act::Byte(34);
    }
    if b == b'\r' {
        return Act::Go(Met::Return);
    }
    if b == b'\n' {
        return Act::Go(Met::Nothing);
    }
    if within(b'0', b'3', b) {
        return Act::Go(Met::Digit(b - 48));
    }
    Act::Bad
}

// In the middle of an octal escape, a byte that is no octal digit.
fn broken_off(b: u8) -> Act
    ensures { act_is result ≡ cond (tokens.is_break b) tokens.cut tokens.bad }
{
    if is_break(b) {
        return Act::Cut;
    }
    Act::Bad
}

// After two octal digits: the third. The first is at most 3, so that the three write a byte.
fn third_digit(d: u8, e: u8, b: u8) -> Act
    requires { d * 8 + e < 32 }
    ensures { act_is result ≡ tokens.act (met_is (Met.Digits d e)) b }
{
    if !is_octal(b) {
        return broken_off(b);
    }
    Act::Byte((d * 8 + e) * 8 + (b - 48))
}

fn act_on(met: Met, b: u8) -> Act
    requires { Small (met_is met) }
    ensures { act_is result ≡ tokens.act (met_is met) b }
{
    match met {
        Met::Nothing => plain_act(b),
        Met::Backslash => escape_act(b),
        Met::Return => {
            if b == b'\n' {
                return Act::Go(Met::Nothing);
            }
            plain_act(b)
        }
        Met::Digit(d) => {
            if is_octal(b) {
                return Act::Go(Met::Digits(d, b - 48));
            }
            broken_off(b)
        }
        Met::Digits(d, e) => third_digit(d, e, b),
    }
}

// What comes next in a string, of which nothing is met at `at`.
fn piece_at(script: &[u8], at: usize) -> Result<Piece, StringFault>
    requires { at ≤ length script.now }
    ensures { PieceAt script.now at result }
{
    let mut met = Met::Nothing;
    for i in at..script.len() {
        match act_on(met, script[i]) {
            Act::Byte(b) => {
                return Ok(Piece::Byte(b, i + 1));
            }
            Act::Go(next) => {
                met = next;
            }
            Act::Close => {
                return Ok(Piece::Closed(i + 1));
            }
            Act::Cut => {
                return Err(StringFault::Cut);
            }
            Act::Bad => {
                return Err(StringFault::Bad(i));
            }
        }
    }
    Err(StringFault::Cut)
}

// How many bytes a string holds and the offset after its closing quote, or what is wrong with it, from the byte after its opening quote.
pub fn judge(script: &[u8], at: usize) -> Result<(usize, usize), StringFault>
    requires { at ≤ length script.now }
    ensures { JudgedAt script.now at result }
{
    let mut i = at;
    let mut size: usize = 0;
    loop {
        match piece_at(script, i)? {
            Piece::Byte(_, next) => {
                i = next;
                size += 1;
            }
            Piece::Closed(next) => {
                return Ok((size, next));
            }
        }
    }
}

// The next byte of a string that is judged well and the offset of the rest, or no more. A loop from the byte after the opening quote, at each
// offset that is given, yields exactly the string's bytes.
// Ruled out: to give an escape's bytes unread; to stop at a byte 0, or at a quote after a backslash.
pub fn unescape(script: &[u8], at: usize) -> Option<(u8, usize)>
    requires { (bs : List ℕ) × (next : ℕ) × StringAt script.now at bs next }
    ensures { Unescapes script.now at result }
{
    match piece_at(script, at) {
        Ok(Piece::Byte(b, next)) => Some((b, next)),
        Ok(Piece::Closed(_)) => None,
        Err(_) => None,
    }
}
