// Handlers of errors, in the words of the dictionary's slots that serve no name: the row of an error, a handler that is set or becomes pending, and the names of
// the latest error. Each function keeps `Rep`, and does to the machine of the definition what its contract names.
#![tactic(auto)]

ghost use Rattle.std.specs.Prelude.{◌≡◌, ◌+◌, ◌*◌, ◌≤◌, ◌<◌, length, set, unwrap_or, IfSome};
ghost use Rattle.semantics.specs.Sizes.{operator_count, error_count, dictionary_words_most};
ghost use Rattle.semantics.specs.Errors.{error_names};
ghost use Rattle.semantics.specs.ErrorLaws.{error_row};
ghost use Rattle.machine.specs.Words.{handler_tag, handler_payload, handler_name};
ghost use Rattle.dictionary.specs.Listing.{listed};
ghost use Rattle.dictionary.specs.Bindings.{NamedItems};
ghost use Rattle.handlers.specs.Handling.{NamesRow, BindsHandler, PendsHandler, HandledFrames, NotesNames};

use heap::Value;
use machine::{
    HANDLER_NAME, HANDLER_PAYLOAD, HANDLER_TAG, HANDLER_WIDTH, LATEST_COMMAND, LATEST_ERROR,
    Machine,
};
use semantics::{ERROR_COUNT, Error};

// The row of an error: its place among the names of errors.
pub fn row_of(e: Error) -> usize
    ensures { (result ≡ error_row e) × (result < error_count) }
{
    match e {
        Error::LimitCheck => 5,
        Error::Undefined => 6,
        Error::StackUnderflow => 7,
        Error::TypeCheck => 8,
        Error::InvalidAccess => 9,
        Error::RangeCheck => 10,
        Error::UndefinedResult => 11,
        Error::UnmatchedMark => 12,
        Error::ExecStackOverflow => 13,
        Error::StackOverflow => 14,
        Error::VmError => 15,
        Error::IoError => 16,
    }
}

// The row of the error whose name has the slot, if the name is an error's.
// Ruled out: `vmerror` taken for VMerror; a name that starts like an error's.
pub fn row_named(dict: &[u32], slot: usize) -> Option<usize>
    requires { (12 * slot + 12 ≤ length dict.now) × (length dict.now ≤ dictionary_words_most) }
    ensures names_row { NamesRow dict.now slot (unwrap_or result error_count) }
    ensures upper_bound { IfSome result (λ j. j < error_count) }
{
    row_among(
        dict,
        slot,
        b"badnumber badescape openstring badbrace badbyte limitcheck undefined stackunderflow typecheck \
            invalidaccess rangecheck undefinedresult unmatchedmark execstackoverflow stackoverflow VMerror ioerror ",
    )
}

// The tag of the row's handler.
pub fn handler_tag(dict: &[u32], row: usize) -> u32
    requires { (row < error_count) × (12 * operator_count ≤ length dict.now) × (length dict.now ≤ dictionary_words_most) }
    ensures { result ≡ handler_tag dict.now row }
{
    dict[HANDLER_WIDTH * row + HANDLER_TAG]
}

// The slot of the name of the row's error, where it has a handler.
pub fn name_slot(dict: &[u32], row: usize) -> u32
    requires { (row < error_count) × (12 * operator_count ≤ length dict.now) × (length dict.now ≤ dictionary_words_most) }
    ensures { result ≡ handler_name dict.now row }
{
    dict[HANDLER_WIDTH * row + HANDLER_NAME]
}

// The row's handler becomes a copy of item i.
// Ruled out: the old handler let go before the new one is counted; another row's handler changed.
pub fn bind_handler(
    mut m: Machine,
    stack: &[u32],
    dict: &mut [u32],
    cells: &mut [u32],
    row: usize,
    slot: u32,
    i: usize,
) -> Machine
    requires { (i < m.depth) × (row < error_count) × NamedItems slot m stack.now dict.old cells.old }
    ensures binds_handler { BindsHandler row slot i m result stack.now dict.old dict.new cells.old cells.new }
    ensures depth_value { result.depth ≡ m.depth }
{
    let lists = m.lists;
    let new = machine::item(stack, m.depth - 1 - i);
    let old = handler(dict, row);
    let left = machine::recount(lists, cells, old, new);
    set_handler(dict, row, new);
    dict[HANDLER_WIDTH * row + HANDLER_NAME] = slot;
    m.lists = left;
    m
}

// A copy of the row's handler becomes pending.
// Ruled out: a handler that is freed while a slot still runs it.
pub fn pend_handler(
    m: Machine,
    exec: &mut [u32],
    dict: &[u32],
    cells: &mut [u32],
    row: usize,
) -> Machine
    requires { (8 * m.frames + 8 ≤ length exec.old) × (row < error_count) × HandledFrames row m exec.old dict.now cells.old }
    ensures pends_handler { PendsHandler row m result exec.old exec.new dict.now cells.old cells.new }
    ensures depth_value { (result.depth ≡ m.depth) × (result.frames ≡ m.frames + 1) }
{
    let value = handler(dict, row);
    frames::pend(m, exec, cells, value)
}

// The names of the latest error and of its command are stored: 0 for none, else one more than the name's slot.
pub fn note(dict: &mut [u32], error: u32, command: u32)
    requires { (12 * operator_count ≤ length dict.old) × (length dict.old ≤ dictionary_words_most) }
    ensures { NotesNames error command dict.old dict.new }
{
    dict[LATEST_ERROR] = error;
    dict[LATEST_COMMAND] = command;
}

// The row's handler.
fn handler(dict: &[u32], row: usize) -> Value
    requires { (row < error_count) × (12 * operator_count ≤ length dict.now) × (length dict.now ≤ dictionary_words_most) }
    ensures { (result.tag ≡ handler_tag dict.now row) × (result.pay ≡ handler_payload dict.now row) }
{
    Value {
        tag: handler_tag(dict, row),
        pay: dict[HANDLER_WIDTH * row + HANDLER_PAYLOAD],
    }
}

// The row's handler becomes the value; nothing is counted.
fn set_handler(dict: &mut [u32], row: usize, value: Value)
    requires { (row < error_count) × (12 * operator_count ≤ length dict.old) × (length dict.old ≤ dictionary_words_most) }
    ensures { dict.new ≡ set (set dict.old (36 * row + 11) value.tag) (36 * row + 23) value.pay }
{
    dict[HANDLER_WIDTH * row + HANDLER_TAG] = value.tag;
    dict[HANDLER_WIDTH * row + HANDLER_PAYLOAD] = value.pay;
}

// The first row whose name in the list, which a blank ends, is the slot's.
fn row_among(dict: &[u32], slot: usize, list: &[u8]) -> Option<usize>
    requires { (list.now ≡ listed error_names) × (12 * slot + 12 ≤ length dict.now) × (length dict.now ≤ dictionary_words_most) }
    ensures names_row { NamesRow dict.now slot (unwrap_or result error_count) }
    ensures upper_bound { IfSome result (λ j. j < error_count) }
{
    let mut at = 0;
    for j in 0..ERROR_COUNT {
        let end = dictionary::blank_from(list, at);
        if dictionary::is_named(dict, slot, &list[at..end]) {
            return Some(j);
        }
        at = end + 1;
    }
    None
}
