// Values as echo writes them (01, House rules): the length of the text, and the text written into the log. Both read the dictionary and the cells alone,
// and give the definition's text of the value that the two words stand for.
#![tactic(auto)]

ghost use Rattle.std.specs.Prelude.{◌≡◌, ◌+◌, ◌≤◌, ◌<◌, length};
ghost use Rattle.heap.specs.Word.{word};
ghost use Rattle.names.specs.Names.{Named};
ghost use Rattle.text.specs.Writing.{Written};
ghost use Rattle.printing.specs.Shown.{Known, KnownString, WithRoom, StringRoom, NameRoom, PlainRoom, TitleRoom};
ghost use Rattle.printing.specs.Shown.{Measures, Writes, PlainSize, PlainWrites, StringByte, CurrentSize, StringSize, StringWrites, NameLength, NameWrites, TitleWrites, cut, truth_text, opening_of, byte_after, short_text};

use machine::{
    TAG_ARRAY, TAG_BOOLEAN, TAG_EXECUTABLE, TAG_INTEGER, TAG_LITERAL, TAG_MARK, TAG_OPERATOR,
    TAG_STRING,
};

// The length of the text of a value, with `depth` levels of arrays written out, or `limit` where it is more. An array's elements are left as soon as that
// is known: there may be 32,767 of them on each level.
// Ruled out: no blank between two elements; the last elements left out of a text that fits.
pub fn measure(dict: &[u32], cells: &[u32], tag: u32, pay: u32, depth: u32, limit: usize) -> usize
    requires { Known dict.now cells.now tag pay }
    ensures { Measures dict.now cells.now tag pay depth limit result }
{
    if tag < TAG_ARRAY {
        return at_most(limit, measure_plain(dict, cells, tag, pay));
    }
    if depth == 0 {
        return at_most(limit, 4);
    }
    let n = heap::size(cells, pay);
    if n == 0 {
        return at_most(limit, 2);
    }
    if limit < 2 {
        return limit;
    }
    let mut sum = 1;
    let mut c = heap::seek(cells, pay, 0);
    for i in 0..n {
        let t = heap::get(cells, c, 0);
        let p = heap::get(cells, c, 1);
        let left = limit - sum;
        let k = measure(dict, cells, t, p, depth - 1, left);
        if left <= k {
            return limit;
        }
        sum = sum + k + 1;
        c = heap::next(cells, c);
    }
    sum
}

// The text of a value, with `depth` levels of arrays written out, for which there is room.
// Ruled out: a bracket of the other kind; a blank after the last element.
pub fn write(
    dict: &[u32],
    cells: &[u32],
    log: &mut [u8],
    at: usize,
    tag: u32,
    pay: u32,
    depth: u32,
) -> usize
    requires { WithRoom dict.now cells.now tag pay depth at log.old }
    ensures { Writes dict.now cells.now tag pay depth at log.old log.new result }
{
    if tag < TAG_ARRAY {
        return write_plain(dict, cells, log, at, tag, pay);
    }
    if depth == 0 {
        return write_short(log, at, tag, true);
    }
    let n = heap::size(cells, pay);
    if n == 0 {
        return write_short(log, at, tag, false);
    }
    log[at] = opening(tag);
    let mut next = at + 1;
    let mut c = heap::seek(cells, pay, 0);
    for i in 0..n {
        let t = heap::get(cells, c, 0);
        let p = heap::get(cells, c, 1);
        next = write(dict, cells, log, next, t, p, depth - 1);
        log[next] = byte_after(tag, n - (i + 1));
        next = next + 1;
        c = heap::next(cells, c);
    }
    next
}

// ---- what is shared

// The lesser of two numbers.
fn at_most(limit: usize, n: usize) -> usize
    ensures { result ≡ cut n limit }
{
    if limit < n {
        return limit;
    }
    n
}

// The opening bracket of an array or a procedure.
fn opening(tag: u32) -> u8
    ensures { result ≡ opening_of tag }
{
    if tag == TAG_ARRAY {
        return b'[';
    }
    b'{'
}

// An array whose elements are not written, or that has none.
fn write_short(log: &mut [u8], at: usize, tag: u32, deep: bool) -> usize
    requires { at + length (short_text tag «deep») ≤ length log.old }
    ensures { Written at (short_text tag «deep») log.old log.new result }
{
    let first = opening(tag);
    let last = byte_after(tag, 0);
    if deep {
        return text::copy(log, at, &[first, b'.', b'.', last]);
    }
    text::copy(log, at, &[first, last])
}

// The byte after an array's element, where so many are left: a blank, or the closing bracket.
fn byte_after(tag: u32, left: u32) -> u8
    ensures { result ≡ byte_after tag left }
{
    if 0 < left {
        return b' ';
    }
    if tag == TAG_ARRAY {
        return b']';
    }
    b'}'
}

// ---- what is no array

fn measure_plain(dict: &[u32], cells: &[u32], tag: u32, pay: u32) -> usize
    requires { (tag < 9) × Known dict.now cells.now tag pay }
    ensures { PlainSize dict.now cells.now tag pay result }
{
    if tag == TAG_INTEGER {
        return text::integer_length(pay);
    }
    if tag == TAG_BOOLEAN {
        return if pay == 1 { 4 } else { 5 };
    }
    if tag == TAG_STRING {
        return measure_string(cells, pay);
    }
    if tag == TAG_OPERATOR {
        return 11 + names::name_size(dict, pay as usize);
    }
    if tag == TAG_EXECUTABLE {
        return measure_name(dict, pay as usize);
    }
    if tag == TAG_LITERAL {
        return 1 + measure_name(dict, pay as usize);
    }
    if tag == TAG_MARK {
        return 6;
    }
    4
}

fn write_plain(dict: &[u32], cells: &[u32], log: &mut [u8], at: usize, tag: u32, pay: u32) -> usize
    requires { (tag < 9) × PlainRoom dict.now cells.now tag pay at log.old }
    ensures { PlainWrites dict.now cells.now tag pay at log.old log.new result }
{
    if tag == TAG_INTEGER {
        return text::write_integer(log, at, pay);
    }
    if tag == TAG_BOOLEAN {
        return write_truth(log, at, pay);
    }
    if tag == TAG_STRING {
        return write_string(cells, log, at, pay);
    }
    if tag == TAG_OPERATOR {
        return write_operator(dict, log, at, pay as usize);
    }
    if tag == TAG_EXECUTABLE {
        return write_name(dict, log, at, pay as usize);
    }
    if tag == TAG_LITERAL {
        log[at] = b'/';
        return write_name(dict, log, at + 1, pay as usize);
    }
    if tag == TAG_MARK {
        return text::copy(log, at, b"-mark-");
    }
    text::copy(log, at, b"null")
}

fn write_truth(log: &mut [u8], at: usize, pay: u32) -> usize
    requires { at + length (truth_text pay) ≤ length log.old }
    ensures { Written at (truth_text pay) log.old log.new result }
{
    if pay == 1 {
        return text::copy(log, at, b"true");
    }
    text::copy(log, at, b"false")
}

// ---- strings, by their headers

// Byte q of the string of header h.
fn string_byte(cells: &[u32], h: u32, q: u32) -> u8
    requires { (q + 1 < word cells.now h 0) × KnownString cells.now h }
    ensures { StringByte cells.now h q result }
{
    let c = heap::seek(cells, h, q / 8);
    let w = heap::get(cells, c, (q % 8 / 4) as usize);
    elements::byte_of(w, q % 8 % 4)
}

// Its current length.
fn current_size(cells: &[u32], h: u32) -> u32
    requires { KnownString cells.now h }
    ensures current_size { CurrentSize cells.now h result }
    ensures upper_bound { result < word cells.now h 0 }
{
    let most = heap::kind(cells, h) - 1;
    for q in 0..most {
        if string_byte(cells, h, q) == 0 {
            return q;
        }
    }
    most
}

// Its current bytes between quotes. A byte takes 4 at most, so the sum fits.
fn measure_string(cells: &[u32], h: u32) -> usize
    requires { KnownString cells.now h }
    ensures { StringSize cells.now h result }
{
    let n = current_size(cells, h);
    let mut sum = 2;
    for q in 0..n {
        let b = string_byte(cells, h, q);
        sum = sum + text::string_byte_length(b);
    }
    sum
}

fn write_string(cells: &[u32], log: &mut [u8], at: usize, h: u32) -> usize
    requires { StringRoom cells.now h at log.old }
    ensures { StringWrites cells.now h at log.old log.new result }
{
    let n = current_size(cells, h);
    log[at] = b'"';
    let mut next = at + 1;
    for q in 0..n {
        let b = string_byte(cells, h, q);
        next = text::write_string_byte(log, next, b);
    }
    log[next] = b'"';
    next + 1
}

// ---- names, by their slots

fn measure_name(dict: &[u32], slot: usize) -> usize
    requires { Named slot dict.now }
    ensures { NameLength slot dict.now result }
{
    let n = names::name_size(dict, slot);
    let mut sum = 0;
    for j in 0..n {
        let b = names::name_byte(dict, slot, j);
        sum = sum + text::name_byte_length(b);
    }
    sum
}

fn write_name(dict: &[u32], log: &mut [u8], at: usize, slot: usize) -> usize
    requires { NameRoom slot dict.now at log.old }
    ensures { NameWrites slot dict.now at log.old log.new result }
{
    let n = names::name_size(dict, slot);
    let mut next = at;
    for j in 0..n {
        let b = names::name_byte(dict, slot, j);
        next = text::write_name_byte(log, next, b);
    }
    next
}

// An operator's name is in the slot of its number, and is written as it is.
fn write_operator(dict: &[u32], log: &mut [u8], at: usize, slot: usize) -> usize
    requires { TitleRoom slot dict.now at log.old }
    ensures { TitleWrites slot dict.now at log.old log.new result }
{
    let n = names::name_size(dict, slot);
    let start = text::copy(log, at, b"<operator:");
    for j in 0..n {
        let b = names::name_byte(dict, slot, j);
        log[start + j] = b;
    }
    log[start + n] = b'>';
    start + n + 1
}
