// Writers of text into a lent buffer: numbers in decimal, strings and names with their escapes; and the lengths of
// these texts without writing. A writer puts exactly the definition's bytes at the offset, leaves every other byte as it
// was, and returns the offset after (`Written`). Who calls one shows that there is room, by the length.
#![tactic(auto)]

ghost use Rattle.std.specs.Prelude.{◌≡◌, ℕ, ◌+◌, ◌≤◌, ◌^◌, List, length};
ghost use Rattle.semantics.specs.Text.{decimal, octal};
ghost use Rattle.semantics.specs.Words.{signed, decimal_z};
ghost use Rattle.semantics.specs.Outcome.{line};
ghost use Rattle.semantics.specs.Printing.{escaped, string_byte, name_byte, name_text};
ghost use Rattle.text.specs.Writing.{Written, is_plain, visible, quoted};
ghost use Rattle.text.specs.Lengths.{string_byte_short, name_byte_short};

// Bytes as they are, one by one: `copy_from_slice` would make the archives for C ask for memcpy and memmove from outside.
pub fn copy(out: &mut [u8], at: usize, text: &[u8]) -> usize
    requires { at + length text.now ≤ length out.old }
    ensures { Written at text.now out.old out.new result }
{
    for (i, &b) in text.iter().enumerate() {
        out[at + i] = b;
    }
    at + text.len()
}

// ---- numbers

// The digits of a number, without leading zeros, counted by division: the logarithm of the library has a table of powers of ten.
pub fn decimal_length(n: u32) -> usize
    ensures { result ≡ length (decimal n) }
{
    if 10 <= n {
        return decimal_length(n / 10) + 1;
    }
    1
}

// The number without its last digit, then that digit. The one writer of numbers, for log, cvs and outcome: that it calls itself, ten deep at most, keeps the
// compiler from copying it to each of its callers.
// Wrong would be: the digits in the order in which division gives them; `00` or nothing for 0.
pub fn write_decimal(out: &mut [u8], at: usize, n: u32) -> usize
    requires { at + length (decimal n) ≤ length out.old }
    ensures { Written at (decimal n) out.old out.new result }
{
    if n < 10 {
        out[at] = 48 + n as u8;
        return at + 1;
    }
    let last = write_decimal(out, at, n / 10);
    out[last] = 48 + (n % 10) as u8;
    last + 1
}

// The integer that the 32 bits stand for.
pub fn integer_length(w: u32) -> usize
    ensures { result ≡ length (decimal_z (signed w)) }
{
    if w < 0x8000_0000 {
        return decimal_length(w);
    }
    1 + decimal_length(magnitude(w))
}

// Wrong would be: 4294967295 for -1; a minus sign and no digits for -2147483648.
pub fn write_integer(out: &mut [u8], at: usize, w: u32) -> usize
    requires { at + length (decimal_z (signed w)) ≤ length out.old }
    ensures { Written at (decimal_z (signed w)) out.old out.new result }
{
    if w < 0x8000_0000 {
        return write_decimal(out, at, w);
    }
    let size = magnitude(w);
    out[at] = b'-';
    write_decimal(out, at + 1, size)
}

// A line of a key and a number, which has 10 digits at most.
pub fn write_number(out: &mut [u8], at: usize, key: &[u8], n: u32) -> usize
    requires { at + length key.now + 12 ≤ length out.old }
    ensures { Written at (line key.now (decimal n)) out.old out.new result }
{
    let next = copy(out, at, key);
    out[next] = b'=';
    let after = write_decimal(out, next + 1, n);
    out[after] = b'\n';
    after + 1
}

// ---- a byte, for who has no slice to lend

pub fn string_byte_length(b: u8) -> usize
    ensures { result ≡ length (string_byte b) }
{
    if b == b'"' {
        return 2;
    }
    if b == b'\n' {
        return 2;
    }
    visible_length(32, b)
}

// Wrong would be: a quote with no backslash, which ends the string; `\\` for a backslash, which is in octal.
pub fn write_string_byte(out: &mut [u8], at: usize, b: u8) -> usize
    requires { at + length (string_byte b) ≤ length out.old }
    ensures { Written at (string_byte b) out.old out.new result }
{
    if b == b'"' {
        return copy(out, at, b"\\\"");
    }
    if b == b'\n' {
        return copy(out, at, b"\\n");
    }
    write_visible(out, at, 32, b)
}

pub fn name_byte_length(b: u8) -> usize
    ensures { result ≡ length (name_byte b) }
{
    visible_length(33, b)
}

// Wrong would be: a space or a newline as it is, which ends the name.
pub fn write_name_byte(out: &mut [u8], at: usize, b: u8) -> usize
    requires { at + length (name_byte b) ≤ length out.old }
    ensures { Written at (name_byte b) out.old out.new result }
{
    write_visible(out, at, 33, b)
}

// ---- strings and names

// A string between quotes. A byte takes 4 at most, so the sum fits.
pub fn quoted_length(s: &[u8]) -> usize
    requires { length s.now ≤ 32768 }
    ensures { result ≡ length (quoted s.now) }
{
    escaped_length::<InString>(s) + 2
}

pub fn write_quoted(out: &mut [u8], at: usize, s: &[u8]) -> usize
    requires { at + length (quoted s.now) ≤ length out.old }
    ensures { Written at (quoted s.now) out.old out.new result }
{
    out[at] = b'"';
    let after = write_escaped::<InString>(out, at + 1, s);
    out[after] = b'"';
    after + 1
}

// A name, with a slash before a literal one.
pub fn name_length(executable: bool, s: &[u8]) -> usize
    requires { length s.now ≤ 32768 }
    ensures { result ≡ length (name_text executable s.now) }
{
    if executable {
        return escaped_length::<InName>(s);
    }
    escaped_length::<InName>(s) + 1
}

pub fn write_name(out: &mut [u8], at: usize, executable: bool, s: &[u8]) -> usize
    requires { at + length (name_text executable s.now) ≤ length out.old }
    ensures { Written at (name_text executable s.now) out.old out.new result }
{
    if executable {
        return write_escaped::<InName>(out, at, s);
    }
    out[at] = b'/';
    write_escaped::<InName>(out, at + 1, s)
}

// ---- what they share

// What a negative integer's word lacks to 2^32: 2147483648 for -2147483648.
fn magnitude(w: u32) -> u32
    requires { 2 ^ 31 ≤ w }
    ensures { result + w ≡ 2 ^ 32 }
{
    w.wrapping_neg()
}

// Whether a byte stands for itself: from `low` to 126, and no backslash.
fn is_plain(low: u8, b: u8) -> bool
    ensures { result ≡ is_plain low b }
{
    (low <= b) & (b <= 126) & (b != b'\\')
}

fn write_octal(out: &mut [u8], at: usize, b: u8) -> usize
    requires { at + length (octal b) ≤ length out.old }
    ensures { Written at (octal b) out.old out.new result }
{
    let digits = [b'\\', 48 + b / 64, 48 + b / 8 % 8, 48 + b % 8];
    copy(out, at, &digits)
}

// A byte as itself where it is plain, else in octal.
fn visible_length(low: u8, b: u8) -> usize
    ensures { result ≡ length (visible low b) }
{
    if is_plain(low, b) { 1 } else { 4 }
}

fn write_visible(out: &mut [u8], at: usize, low: u8, b: u8) -> usize
    requires { at + length (visible low b) ≤ length out.old }
    ensures { Written at (visible low b) out.old out.new result }
{
    if is_plain(low, b) {
        out[at] = b;
        return at + 1;
    }
    write_octal(out, at, b)
}

// ---- how a byte stands in a text: in a string between quotes, or in a name

// The text of a byte, its length and its writer. A byte takes 4 at most.
trait Escape {
    ghost text: { ℕ → List ℕ };

    fn length(b: u8) -> usize
        ensures { result ≡ length (text b) };

    fn write(out: &mut [u8], at: usize, b: u8) -> usize
        requires { at + length (text b) ≤ length out.old }
        ensures { Written at (text b) out.old out.new result };

    ghost short: { (b : ℕ) → length (text b) ≤ 4 };
}

struct InString;

struct InName;

impl Escape for InString {
    ghost text = { string_byte };

    ghost short = { string_byte_short };

    fn length(b: u8) -> usize {
        string_byte_length(b)
    }

    fn write(out: &mut [u8], at: usize, b: u8) -> usize {
        write_string_byte(out, at, b)
    }
}

impl Escape for InName {
    ghost text = { name_byte };

    ghost short = { name_byte_short };

    fn length(b: u8) -> usize {
        name_byte_length(b)
    }

    fn write(out: &mut [u8], at: usize, b: u8) -> usize {
        write_name_byte(out, at, b)
    }
}

// The bytes of a string or of a name.
fn escaped_length<E: Escape>(s: &[u8]) -> usize
    requires { length s.now ≤ 32768 }
    ensures { result ≡ length (escaped E.text s.now) }
{
    let mut sum = 0;
    for b in s {
        sum += E::length(*b);
    }
    sum
}

fn write_escaped<E: Escape>(out: &mut [u8], at: usize, s: &[u8]) -> usize
    requires { at + length (escaped E.text s.now) ≤ length out.old }
    ensures { Written at (escaped E.text s.now) out.old out.new result }
{
    let mut next = at;
    for b in s {
        next = E::write(out, next, *b);
    }
    next
}
