// The operator cvs: the text of a value goes into a string. It does exactly what the definition's operator does and then the definition's test of room, errors
// and their order included. Nothing is changed before the last check.
#![tactic(auto)]

ghost use Rattle.std.specs.Prelude.{◌≡◌, false, ◌≤◌, ◌<◌, length};
ghost use Rattle.semantics.specs.Sizes.{name_most};
ghost use Rattle.semantics.specs.Text.{bytes};
ghost use Rattle.semantics.specs.Operators.{perform};
ghost use Rattle.machine.specs.Rep.{Somewhere, MovesHeap};
ghost use Rattle.machine.specs.Room.{DoesHeap};
ghost use Rattle.elements.specs.Elements.{HasString, ItemTag, ItemSealed, SomewhereThat, byte_put};
ghost use Rattle.strings.specs.Strings.{HasBytes, bytes_filled};
ghost use Rattle.names.specs.Names.{Named};
ghost use Rattle.conversions.specs.Texts.{SomewhereNamed, DoesNamedHeap, converted, ended, Known, TextOf, NameRead};

use heap::Value;
use machine::{Machine, TAG_BOOLEAN, TAG_EXECUTABLE, TAG_INTEGER, TAG_LITERAL, TAG_STRING};
use semantics::{Error, NAME_MOST};

// Ruled out: rangecheck where the text fills the string exactly, or where the string is read only; bytes after the text and its zero that are lost.
pub fn cvs(m: Machine, stack: &mut [u32], dict: &[u32], cells: &mut [u32]) -> Result<Machine, Error>
    requires { SomewhereNamed m stack.old dict.now cells.old }
    ensures { DoesNamedHeap (perform (bytes "cvs")) m stack.old stack.new dict.now cells.old cells.new result }
{
    if m.depth < 2 {
        return Err(Error::StackUnderflow);
    }
    if elements::tag_of(m, stack, 0) != TAG_STRING {
        return Err(Error::TypeCheck);
    }
    if elements::is_sealed(m, stack, cells, 0) {
        return Err(Error::InvalidAccess);
    }
    let value = machine::item(stack, m.depth - 2);
    if value.tag == TAG_STRING {
        return convert_string(m, stack, cells);
    }
    let mut text = [0u8; NAME_MOST];
    let n = write_value(dict, value, &mut text);
    convert(m, stack, cells, &text[0..n])
}

// cvs of a string. Both operands may be one string.
fn convert_string(m: Machine, stack: &mut [u32], cells: &mut [u32]) -> Result<Machine, Error>
    requires { (2 ≤ m.depth) × ItemTag 0 m stack.old 8 × ItemSealed 0 m stack.old cells.old false × SomewhereThat (HasString 1) m stack.old cells.old }
    ensures { DoesHeap (perform (bytes "cvs")) m stack.old stack.new cells.old cells.new result }
{
    let n = strings::current_length(m, stack, cells, 1);
    let most = elements::maximum(m, stack, cells, 0);
    if most < n {
        return Err(Error::RangeCheck);
    }
    strings::copy_bytes(m, stack, cells, 0, 0, 1, 0, n);
    Ok(end_text(m, stack, cells, n))
}

// cvs of a value with this text.
fn convert(m: Machine, stack: &mut [u32], cells: &mut [u32], text: &[u8]) -> Result<Machine, Error>
    requires { (2 ≤ m.depth) × (length text.now ≤ name_most) × ItemTag 0 m stack.old 8 × Somewhere m stack.old cells.old }
    ensures { DoesHeap (converted text.now) m stack.old stack.new cells.old cells.new result }
{
    let n = text.len() as u32;
    if elements::maximum(m, stack, cells, 0) < n {
        return Err(Error::RangeCheck);
    }
    put_text(m, stack, cells, text);
    Ok(end_text(m, stack, cells, n))
}

// The text goes to the front of the string that is item 0; its bytes after it stay.
fn put_text(m: Machine, stack: &[u32], cells: &mut [u32], text: &[u8])
    requires { (2 ≤ m.depth) × (length text.now ≤ name_most) × SomewhereThat (HasBytes 0 0 (length text.now)) m stack.now cells.old }
    ensures { MovesHeap (bytes_filled 0 text.now) m m stack.now stack.now cells.old cells.new }
{
    for q in 0..text.len() {
        elements::put_byte(m, stack, cells, 0, q as u32, text[q]);
    }
}

// A zero goes after the n bytes of the text, if room remains, and the string alone is left.
fn end_text(m: Machine, stack: &mut [u32], cells: &mut [u32], n: u32) -> Machine
    requires { (2 ≤ m.depth) × SomewhereThat (HasString 0) m stack.old cells.old }
    ensures { MovesHeap (ended n) m result stack.old stack.new cells.old cells.new }
{
    put_zero(m, stack, cells, n);
    let turned = m.swap(stack, 0, 1);
    turned.drop(stack, cells)
}

// Byte n of the string that is item 0 becomes a zero, if it has one.
fn put_zero(m: Machine, stack: &[u32], cells: &mut [u32], n: u32)
    requires { (2 ≤ m.depth) × SomewhereThat (HasString 0) m stack.now cells.old }
    ensures { MovesHeap (byte_put 0 n 0) m m stack.now stack.now cells.old cells.new }
{
    if elements::maximum(m, stack, cells, 0) <= n {
        return;
    }
    elements::put_byte(m, stack, cells, 0, n, 0);
}

// The text of a value that is no string, at the front of out.
fn write_value(dict: &[u32], value: Value, out: &mut [u8]) -> usize
    requires { (name_most ≤ length out.old) × (value.tag ≡ 8 → ⊥) × Known dict.now value.tag value.pay }
    ensures text_of { TextOf dict.now value.tag value.pay out.new result }
    ensures upper_bound { result ≤ name_most }
{
    let Value { tag, pay } = value;
    if tag == TAG_INTEGER {
        return text::write_integer(out, 0, pay);
    }
    if tag == TAG_BOOLEAN {
        if pay == 1 {
            return text::copy(out, 0, b"true");
        }
        return text::copy(out, 0, b"false");
    }
    if tag == TAG_LITERAL {
        return read_name(dict, pay as usize, out);
    }
    if tag == TAG_EXECUTABLE {
        return read_name(dict, pay as usize, out);
    }
    text::copy(out, 0, b"--nostringval--")
}

// The name in a slot, at the front of out.
fn read_name(dict: &[u32], slot: usize, out: &mut [u8]) -> usize
    requires { (name_most ≤ length out.old) × Named slot dict.now }
    ensures name_read { NameRead slot dict.now out.new result }
    ensures upper_bound { result ≤ name_most }
{
    let n = names::name_size(dict, slot);
    for j in 0..n {
        out[j] = names::name_byte(dict, slot, j);
    }
    n
}
