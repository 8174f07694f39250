// The machine at the start of a run: the predefined names in the first slots of the dictionary, and no item, execution slot, object or handler. Only the words
// of those slots are written.
#![tactic(auto)]

ghost use Rattle.std.specs.Prelude.{◌≡◌, ◌≤◌, length};
ghost use Rattle.semantics.specs.Sizes.{cells_most, name_words, dictionary_words_most};
ghost use Rattle.heap.specs.Shape as Heap;
ghost use Rattle.start.specs.Begins.{Begins};
ghost use Rattle.start.specs.Predefined.{names, tag_of, payload_of, Filled, Unhandled};
ghost use Rattle.dictionary.specs.Listing.{listed};

use machine::{
    BINDING_PAYLOAD, BINDING_TAG, HANDLER_TAG, HANDLER_WIDTH, LATEST_COMMAND, LATEST_ERROR,
    Machine, TAG_BOOLEAN, TAG_NULL, TAG_OPERATOR, TAG_UNBOUND,
};
use semantics::{DICTIONARY_WIDTH, ERROR_COUNT, NAME_COUNT, OPERATOR_COUNT};

// The number of mark, which [ is bound to.
const MARK: u32 = 37;

// Ruled out: a name at another number than its operator's; a heap that takes old words for objects.
pub fn begin(dict: &mut [u32], cells: &[u32]) -> Machine
    requires { (name_words ≤ length dict.old) × (length dict.old ≤ dictionary_words_most) × (Heap.cells cells.now ≤ cells_most) }
    ensures { Begins dict.old dict.new cells.now result }
{
    write_names(
        dict,
        b"dup exch pop index copy roll add sub mul idiv mod abs neg bitshift not and or xor eq ne lt le gt ge def load \
            bind exec if ifelse loop repeat for exit continue stop array mark ] length get put getinterval putinterval \
            aload astore string cvs cvx cvlit cvn echo echostack print onerror errorname command \
            ones lowpeg highpeg readonly [ true false null ",
    );
    forget_handlers(dict);
    Machine {
        depth: 0,
        frames: 0,
        names: NAME_COUNT,
        written: 0,
        lists: heap::fresh(),
        stopped: false,
    }
}

// Each name of the list, which a blank ends, takes the next slot, with its binding.
fn write_names(dict: &mut [u32], list: &[u8])
    requires { (list.now ≡ listed names) × (name_words ≤ length dict.old) × (length dict.old ≤ dictionary_words_most) }
    ensures { Filled dict.old dict.new }
{
    let mut at = 0;
    for k in 0..NAME_COUNT {
        let end = dictionary::blank_from(list, at);
        dictionary::spell(dict, k, &list[at..end]);
        dict[DICTIONARY_WIDTH * k + BINDING_TAG] = binding_tag(k);
        dict[DICTIONARY_WIDTH * k + BINDING_PAYLOAD] = binding_payload(k);
        at = end + 1;
    }
}

// No error has a handler, and none has been handled.
// Ruled out: a handler that an earlier run set.
fn forget_handlers(dict: &mut [u32])
    requires { (name_words ≤ length dict.old) × (length dict.old ≤ dictionary_words_most) }
    ensures { Unhandled dict.old dict.new }
{
    for j in 0..ERROR_COUNT {
        dict[HANDLER_WIDTH * j + HANDLER_TAG] = TAG_UNBOUND;
    }
    dict[LATEST_ERROR] = 0;
    dict[LATEST_COMMAND] = 0;
}

// The operators come first, then [, true, false and null.
fn binding_tag(k: usize) -> u32
    ensures { result ≡ tag_of k }
{
    if k <= OPERATOR_COUNT {
        return TAG_OPERATOR;
    }
    if k <= OPERATOR_COUNT + 2 {
        return TAG_BOOLEAN;
    }
    TAG_NULL
}

fn binding_payload(k: usize) -> u32
    ensures { result ≡ payload_of k }
{
    if k < OPERATOR_COUNT {
        return k as u32;
    }
    if k == OPERATOR_COUNT {
        return MARK;
    }
    if k == OPERATOR_COUNT + 1 {
        return 1;
    }
    0
}
