// Numbers: a run of name bytes that begins as a number does is judged whole, its form before its size.
ghost use Rattle.std.specs.Prelude.{◌≡◌, ◌+◌, ◌≤◌, ◌<◌, ◌^◌, length, drop};
ghost use Rattle.semantics.specs.Tokens as tokens;
ghost use Rattle.token.specs.Numbers.{form_is, number_is, with_digit, numeral};

use crate::bytes::{is_digit, within};
use semantics::Fault;

// -12, 0xC, 12
#[derive(Clone, Copy, PartialEq, Eq, Debug)]
pub enum Form {
    Negative,
    Hexadecimal,
    Plain,
}

// The largest numbers of each form.
const NEGATIVE_LIMIT: u64 = 2147483648;

const HEXADECIMAL_LIMIT: u64 = 4294967295;

const PLAIN_LIMIT: u64 = 2147483647;

// A digit, or - and a digit.
pub fn starts_number(s: &[u8]) -> bool
    ensures { result ≡ tokens.starts_number s.now }
{
    if s.len() == 0 {
        return false;
    }
    let b = s[0];
    if is_digit(b) {
        return true;
    }
    if s.len() == 1 {
        return false;
    }
    if b != b'-' {
        return false;
    }
    is_digit(s[1])
}

// How many bytes of a run that starts as a number does could begin a name: its minus sign.
pub fn signs(s: &[u8]) -> usize
    ensures { result ≡ tokens.signs s.now }
{
    if s.len() == 0 {
        return 0;
    }
    if is_digit(s[0]) {
        return 0;
    }
    1
}

fn form_of(s: &[u8]) -> Form
    ensures { form_is result ≡ tokens.form_of s.now }
{
    if s.len() < 2 {
        return Form::Plain;
    }
    let b = s[0];
    let x = s[1];
    if b == b'-' {
        return Form::Negative;
    }
    if b != b'0' {
        return Form::Plain;
    }
    if x == b'x' {
        return Form::Hexadecimal;
    }
    Form::Plain
}

// A digit's value; 16 where it is none.
fn digit(b: u8) -> u64
    ensures { result ≡ tokens.digit b }
{
    if is_digit(b) {
        return (b as u64) - 48;
    }
    if within(b'a', b'f', b) {
        return (b as u64) - 87;
    }
    if within(b'A', b'F', b) {
        return (b as u64) - 55;
    }
    16
}

// The number n with one digit more. One over the limit stays: with more digits it is over the limit still.
fn with_digit(limit: u64, base: u64, n: u64, d: u64) -> u64
    requires { (limit < 2 ^ 32) × (base ≤ 16) × (d < base) }
    ensures { result ≡ with_digit limit base n d }
{
    if limit < n {
        return n;
    }
    n * base + d
}

// The number that the digits from `at` on write, at most the limit, in a run whose first byte is at `start` in the script. Any number of digits is read, and all
// are judged.
pub fn numeral_at(s: &[u8], start: usize, at: usize, base: u64, limit: u64) -> Result<u32, Fault>
    requires { (limit < 2 ^ 32) × (0 < base) × (base ≤ 16) × (at ≤ length s.now) × (start + length s.now < 2 ^ 32) }
    ensures { number_is result ≡ numeral base limit (start + at) (drop at s.now) }
{
    if s.len() <= at {
        return Err(Fault::BadNumber((start + at) as u32));
    }
    let mut n: u64 = 0;
    for i in at..s.len() {
        let d = digit(s[i]);
        if base <= d {
            return Err(Fault::BadNumber((start + i) as u32));
        }
        n = with_digit(limit, base, n, d);
    }
    if limit < n {
        return Err(Fault::OverLimit);
    }
    Ok(n as u32)
}

// The 32 bits of a run that starts as a number does, at `start` in the script, or its fault.
pub fn number_of(s: &[u8], start: usize) -> Result<u32, Fault>
    requires { start + length s.now < 2 ^ 32 }
    ensures { number_is result ≡ tokens.number start s.now }
{
    match form_of(s) {
        Form::Negative => {
            let n = numeral_at(s, start, 1, 10, NEGATIVE_LIMIT)?;
            Ok(n.wrapping_neg())
        }
        Form::Hexadecimal => numeral_at(s, start, 2, 16, HEXADECIMAL_LIMIT),
        Form::Plain => numeral_at(s, start, 0, 10, PLAIN_LIMIT),
    }
}
