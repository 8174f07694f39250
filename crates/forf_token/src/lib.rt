// The reading of one token of a Forf script, where it stands: space and comments, integers, words and braces. `token_at` answers as the definition's `lex`
// does, and the public reading, `read`, `part` and `locate`, as its `reading`, on every script and at every offset. No byte is copied.
#![tactic(auto)]

ghost use Rattle.std.specs.Prelude.{◌≡◌, ◌+◌, ◌≤◌, ◌<◌, length, drop};
ghost use Rattle.semantics.specs.Sizes.{script_most};
ghost use Rattle.forf_semantics.specs.Tokens as tokens;
ghost use Rattle.forf_semantics.specs.Items as items;
ghost use Rattle.forf_semantics.specs.Setup as setup;
ghost use Rattle.forf_semantics.specs.SkipLaws as skipping;
ghost use Rattle.forf_token.specs.Skips.{SkipsAt};
ghost use Rattle.forf_token.specs.Lexing.{LexedAt, RunAt, read_number, up_to_limit};
ghost use Rattle.forf_token.specs.Reading.{LocatedAt, owned_by, answer_of, answer, part_of};

use forf_semantics::Kind;
use semantics::{NAME_MOST, SCRIPT_MOST};
use token::is_space;
pub use token::{Located, Refused};

// A token of a script: an integer by its 32 bits. A word is all bytes from where it begins to the offset after it.
#[derive(Clone, Copy, PartialEq, Eq, Debug)]
pub enum Token {
    Integer(u32),
    Word,
    OpenBrace,
    CloseBrace,
    End,
}

// The paper's syntaxerror, which is all that can be wrong with a token.
#[derive(Clone, Copy, PartialEq, Eq, Debug)]
pub struct SyntaxError;

// The greatest number after a minus sign, and the greatest without.
const NEGATIVE_LIMIT: u64 = 2147483648;

const PLAIN_LIMIT: u64 = 2147483647;

// The kind of the next token from `offset` on, and the offset after it.
// Ruled out: a reader that refuses the offset at the very end; one that answers an integer for 08 or 2147483648.
pub fn read(script: &[u8], offset: usize) -> Result<(Kind, usize), Refused<SyntaxError>>
    ensures { answer_of offset result ≡ answer offset (setup.reading script.now offset) }
{
    let token = locate(script, offset)?;
    Ok((token.kind, token.next))
}

// That token's own bytes, the very part of the script.
// Ruled out: the space before the token handed out with it; the rest of the script in place of the part.
pub fn part(script: &[u8], offset: usize) -> &[u8]
    ensures { result.now ≡ part_of script.now (setup.reading script.now offset) }
{
    let Ok(token) = locate(script, offset) else {
        return &[];
    };
    &script[token.start..token.start + token.size]
}

// The definition's reading, whole: the kind, the offset after it, and where the token's own bytes are, for a caller that can be handed no slice.
// Ruled out: a comment taken for a token's bytes; an end whose part begins at the offset given and not at the length.
pub fn locate(script: &[u8], offset: usize) -> Result<Located<Kind>, Refused<SyntaxError>>
    ensures { LocatedAt script.now offset result }
{
    if SCRIPT_MOST < script.len() {
        return Err(Refused::TooLong);
    }
    if script.len() < offset {
        return Err(Refused::PastEnd);
    }
    let start = skip(script, offset);
    let (token, next) = token_at(script, start)?;
    Ok(own_part(token, start, next))
}

// The offset of the first byte from `at` on that is neither space nor comment, or the script's length.
// Ruled out: a comment that an inner parenthesis lengthens; a parenthesis that is never closed passed over.
pub fn skip(script: &[u8], at: usize) -> usize
    requires { at ≤ length script.now }
    ensures value { result ≡ items.skip script.now at }
    ensures upper_bound { result ≤ length script.now }
{
    let mut i = at;
    while let Some(after) = blank_after(script, i) {
        i = after;
    }
    i
}

// The token at `start`, as the definition's `lex` reads it there.
// Ruled out: a word of 32 bytes; -2147483649 wrapped to 2147483647; a parenthesis inside a word.
pub fn token_at(script: &[u8], start: usize) -> Result<(Token, usize), SyntaxError>
    requires { (start ≤ length script.now) × (length script.now ≤ script_most) }
    ensures { LexedAt script.now start result }
{
    if script.len() <= start {
        return Ok((Token::End, start));
    }
    let b = script[start];
    if !is_end(b) {
        return run_at(script, start);
    }
    if b == b'{' {
        return Ok((Token::OpenBrace, start + 1));
    }
    if b == b'}' {
        return Ok((Token::CloseBrace, start + 1));
    }
    Err(SyntaxError)
}

// The integer or the word that begins at a byte that ends no token.
fn run_at(script: &[u8], start: usize) -> Result<(Token, usize), SyntaxError>
    requires { RunAt script.now start }
    ensures { LexedAt script.now start result }
{
    let end = run_end(script, start);
    let run = &script[start..end];
    if token::starts_number(run) {
        let w = number_of(run)?;
        return Ok((Token::Integer(w), end));
    }
    if NAME_MOST < end - start {
        return Err(SyntaxError);
    }
    Ok((Token::Word, end))
}

// The 32 bits of a run that starts as a number does.
fn number_of(s: &[u8]) -> Result<u32, SyntaxError>
    requires { length s.now ≤ script_most }
    ensures { read_number result ≡ tokens.number s.now }
{
    if s.is_empty() || s[0] != b'-' {
        return magnitude(s, 0, PLAIN_LIMIT);
    }
    let n = magnitude(s, 1, NEGATIVE_LIMIT)?;
    Ok(n.wrapping_neg())
}

// The number that a run writes from `at` on, its sign being passed: 0xC, 014 or 12, at most the limit. Whatever is wrong with it is a syntaxerror.
fn magnitude(s: &[u8], at: usize, limit: u64) -> Result<u32, SyntaxError>
    requires { (at ≤ length s.now) × (length s.now ≤ script_most) × (limit ≤ 2147483648) }
    ensures { read_number result ≡ up_to_limit limit (tokens.magnitude (drop at s.now)) }
{
    let (base, prefix) = match &s[at..] {
        [b'0', b'x', ..] => (16, 2),
        [b'0', _, ..] => (8, 1),
        _ => (10, 0),
    };
    token::numeral_at(s, 0, at + prefix, base, limit).or(Err(SyntaxError))
}

// A token's kind and its own bytes, for one from `start` to `next`.
fn own_part(token: Token, start: usize, next: usize) -> Located<Kind>
    requires { start ≤ next }
    ensures { result ≡ owned_by start next token }
{
    let kind = match token {
        Token::Integer(_) => Kind::Integer,
        Token::Word => Kind::Word,
        Token::OpenBrace => Kind::OpenBrace,
        Token::CloseBrace => Kind::CloseBrace,
        Token::End => Kind::End,
    };
    Located {
        kind,
        next,
        start,
        size: next - start,
    }
}

// ---- bytes

// Space, a brace or a parenthesis: what ends a token.
fn is_end(b: u8) -> bool
    ensures { result ≡ tokens.is_end b }
{
    is_space(b) || matches!(b, b'{' | b'}' | b'(' | b')')
}

// Where the next closing parenthesis from `at` on stands, or the script's length.
fn close_from(script: &[u8], at: usize) -> usize
    requires { at ≤ length script.now }
    ensures value { result ≡ at + skipping.until (drop at script.now) }
    ensures upper_bound { result ≤ length script.now }
{
    token::first_from(script, at, |b| b == b')')
}

// The offset after the byte of space or the comment at `at`, if there is one.
fn blank_after(script: &[u8], at: usize) -> Option<usize>
    requires { at ≤ length script.now }
    ensures { SkipsAt script.now at result }
{
    if at == script.len() {
        return None;
    }
    let b = script[at];
    if is_space(b) {
        return Some(at + 1);
    }
    if b != b'(' {
        return None;
    }
    let close = close_from(script, at + 1);
    if close == script.len() {
        return None;
    }
    Some(close + 1)
}

// How far the bytes from `at` on reach that end no token.
fn run_end(script: &[u8], at: usize) -> usize
    requires { at ≤ length script.now }
    ensures value { result ≡ at + tokens.run (drop at script.now) }
    ensures upper_bound { result ≤ length script.now }
{
    token::first_from(script, at, |b| is_end(b))
}
