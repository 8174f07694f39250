// The reading of one token of a script, where it stands: space and comment, names, numbers, strings and braces. `token_at` answers as
// the definition's `lex` does, and the public reading, `read`, `part` and `locate`, as its `reading`, on every script and at every offset.
// No byte is copied: an answer says where a token's bytes are, and `unescape` gives a string's bytes one by one.
#![tactic(auto)]

ghost use Rattle.std.specs.Prelude.{◌≡◌, ◌≤◌, ◌<◌, ◌^◌, length};
ghost use Rattle.semantics.specs.Groups as groups;
ghost use Rattle.semantics.specs.Setup as setup;
ghost use Rattle.token.specs.Lexing.{LexedAt, NameByteAt, SlashAt, QuoteAt};
ghost use Rattle.token.specs.Reading.{LocatedAt, Ordered, owned_by, answer_of, answer, part_of};
ghost use Rattle.token.specs.declared.Refused.TheVariants.{Faulty};

use semantics::{Fault, Kind, NAME_MOST, SCRIPT_MOST};

mod bytes;
mod numbers;
mod quoted;

use bytes::{Class, blank_end, class_of, run_end};
pub use bytes::{first_from, is_space};
use numbers::{number_of, signs};
pub use numbers::{numeral_at, starts_number};
pub use quoted::unescape;
use quoted::{StringFault, judge};

// A token of a script: an integer by its 32 bits, a string by where its bytes begin and how many it will hold, a name by where its bytes
// are and how many.
#[derive(Clone, Copy, PartialEq, Eq, Debug)]
pub enum Token {
    Integer(u32),
    String(usize, usize),
    ExecutableName(usize, usize),
    LiteralName(usize, usize),
    OpenBrace,
    CloseBrace,
    End,
}

// Why a reading finds no token: the paper's refusals 1 and 10, or a fault. Forf's reading has its own faults and kinds here and below.
#[derive(Clone, Copy, PartialEq, Eq, Debug)]
pub enum Refused<F> {
    TooLong,
    PastEnd,
    Faulty(F),
}

// A token's kind, the offset after it, and where its own bytes begin and how many they are.
#[derive(Clone, Copy, PartialEq, Eq, Debug)]
pub struct Located<K> {
    pub kind: K,
    pub next: usize,
    pub start: usize,
    pub size: usize,
}

impl<F> From<F> for Refused<F> {
    ghost from_gives = { λ f r. r ≡ Faulty f };

    fn from(f: F) -> Refused<F> {
        Refused::Faulty(f)
    }
}

// The kind of the next token from `offset` on, and the offset after it.
// Ruled out: a reader that looks for `#FLOO`, or refuses the offset at the very end; one that answers limitcheck for 99999999999a.
pub fn read(script: &[u8], offset: usize) -> Result<(Kind, usize), Refused<Fault>>
    ensures { answer_of offset result ≡ answer offset (setup.reading script.now offset) }
{
    let token = locate(script, offset)?;
    Ok((token.kind, token.next))
}

// That token's own bytes, the very part of the script: a string's without quotes, escapes unread, and a literal name's without its slash.
// Ruled out: the slash or a quote handed out; the rest of the script in place of the part.
pub fn part(script: &[u8], offset: usize) -> &[u8]
    ensures { result.now ≡ part_of script.now (setup.reading script.now offset) }
{
    let Ok(token) = locate(script, offset) else {
        return &[];
    };
    &script[token.start..token.start + token.size]
}

// The definition's reading, whole: the kind, the offset after it, and where the token's own bytes are, for a caller that can be handed no slice.
// Ruled out: the bytes of a string counted after its escapes are read; an end whose part begins at the offset given and not at the length.
pub fn locate(script: &[u8], offset: usize) -> Result<Located<Kind>, Refused<Fault>>
    ensures { LocatedAt script.now offset result }
{
    if SCRIPT_MOST < script.len() {
        return Err(Refused::TooLong);
    }
    if script.len() < offset {
        return Err(Refused::PastEnd);
    }
    let start = skip(script, offset);
    let (token, next) = token_at(script, start)?;
    Ok(own_part(token, start, next))
}

// The offset of the first byte from `at` on that is neither space nor comment, or the script's length.
// Ruled out: a comment that swallows its line break and the next line; one that `#` ends.
pub fn skip(script: &[u8], at: usize) -> usize
    requires { at ≤ length script.now }
    ensures value { result ≡ groups.skip script.now at }
    ensures upper_bound { result ≤ length script.now }
{
    blank_end(script, at)
}

// The token at `start`, as the definition's `lex` reads it there.
// Ruled out: a name of 32 bytes; -2147483649 wrapped to 2147483647.
pub fn token_at(script: &[u8], start: usize) -> Result<(Token, usize), Fault>
    requires start_in_bounds { start ≤ length script.now }
    requires script_len_bound { length script.now < 2 ^ 32 }
    ensures { LexedAt script.now start result }
{
    if script.len() <= start {
        return Ok((Token::End, start));
    }
    match class_of(script[start]) {
        Class::NameByte => word_at(script, start),
        Class::Bracket => Ok((Token::ExecutableName(start, 1), start + 1)),
        Class::OpenBrace => Ok((Token::OpenBrace, start + 1)),
        Class::CloseBrace => Ok((Token::CloseBrace, start + 1)),
        Class::Quote => string_at(script, start),
        Class::Slash => literal_at(script, start),
        Class::Other => Err(Fault::BadByte(start as u32)),
    }
}

// The number or the executable name that begins at a name byte.
fn word_at(script: &[u8], start: usize) -> Result<(Token, usize), Fault>
    requires name_byte_at { NameByteAt script.now start }
    requires script_len_bound { length script.now < 2 ^ 32 }
    ensures { LexedAt script.now start result }
{
    let end = run_end(script, start);
    let run = &script[start..end];
    if starts_number(run) {
        let w = number_of(run, start)?;
        return Ok((Token::Integer(w), end));
    }
    let size = end - start;
    if NAME_MOST < size {
        return Err(Fault::OverLimit);
    }
    Ok((Token::ExecutableName(start, size), end))
}

// The literal name that begins at a slash.
fn literal_at(script: &[u8], start: usize) -> Result<(Token, usize), Fault>
    requires slash_at { SlashAt script.now start }
    requires script_len_bound { length script.now < 2 ^ 32 }
    ensures { LexedAt script.now start result }
{
    let at = start + 1;
    let end = run_end(script, at);
    let size = end - at;
    if size == 0 {
        return Err(Fault::BadByte(at as u32));
    }
    let run = &script[at..end];
    if starts_number(run) {
        return Err(Fault::BadByte((at + signs(run)) as u32));
    }
    if NAME_MOST < size {
        return Err(Fault::OverLimit);
    }
    Ok((Token::LiteralName(at, size), end))
}

// The string that begins at a quote.
fn string_at(script: &[u8], start: usize) -> Result<(Token, usize), Fault>
    requires quote_at { QuoteAt script.now start }
    requires script_len_bound { length script.now < 2 ^ 32 }
    ensures { LexedAt script.now start result }
{
    let at = start + 1;
    match judge(script, at) {
        Ok((size, next)) => Ok((Token::String(at, size), next)),
        Err(StringFault::Cut) => Err(Fault::OpenString(start as u32)),
        Err(StringFault::Bad(i)) => Err(Fault::BadEscape(i as u32)),
    }
}

// A token's kind and its own bytes, for one from `start` to `next`.
fn own_part(token: Token, start: usize, next: usize) -> Located<Kind>
    requires { Ordered start next token }
    ensures { result ≡ owned_by start next token }
{
    let (kind, start, size) = match token {
        Token::Integer(_) => (Kind::Integer, start, next - start),
        Token::String(at, _) => (Kind::String, at, next - at - 1),
        Token::ExecutableName(at, size) => (Kind::ExecutableName, at, size),
        Token::LiteralName(at, size) => (Kind::LiteralName, at, size),
        Token::OpenBrace => (Kind::OpenBrace, start, 1),
        Token::CloseBrace => (Kind::CloseBrace, start, 1),
        Token::End => (Kind::End, start, 0),
    };
    Located {
        kind,
        next,
        start,
        size,
    }
}
