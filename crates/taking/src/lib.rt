// What a script token other than a brace group does in a step, and the names of a brace group. Each function that takes a token does exactly what the
// definition makes of it, with the test of room after it, errors and their order included; where it fails, no word has changed.
#![tactic(auto)]

ghost use Rattle.std.specs.Prelude.{◌≡◌, ◌+◌, ◌*◌, ◌≤◌, ◌<◌, length, MatchResult};
ghost use Rattle.semantics.specs.Sizes.{name_most, script_most, dictionary_most, dictionary_words_most, stack_words_most};
ghost use Rattle.semantics.specs.declared.Error.TheVariants.{LimitCheck};
ghost use Rattle.machine.specs.Rep.{Somewhere};
ghost use Rattle.machine.specs.Room.{DoesStack};
ghost use Rattle.taking.specs.Effects.{integer_taken, literal_taken, executable_taken};
ghost use Rattle.taking.specs.Promises.{Bindings, NamedBindings, Names, StringOf, DoesBinding, DoesNamed, DoesNames, DoesString, PushesWords, PushesName};
ghost use Rattle.taking.specs.Flat.{Dictionary, Group, Ahead, AddsNames, AddsName, MetAt};

use machine::{
    BINDING_TAG, ITEM_PAYLOAD, Machine, TAG_INTEGER, TAG_LITERAL, TAG_NULL, TAG_UNBOUND,
};
use semantics::{DICTIONARY_WIDTH, Error, STACK_WIDTH};
use token::Token;

// An integer is pushed.
// Ruled out: a push where the stack is full; another word than the token's.
pub fn take_integer(m: Machine, stack: &mut [u32], w: u32) -> Result<Machine, Error>
    requires { (2 * m.depth ≤ length stack.old) × (length stack.old ≤ stack_words_most) }
    ensures { DoesStack (integer_taken w) m stack.old stack.new result }
{
    m.has_room(stack, 1)?;
    Ok(m.push_scalar(stack, TAG_INTEGER, w))
}

// A string is made of the `size` bytes that the token writes, whose text is at `at`, and pushed.
// Ruled out: VMerror where the stack is full; a string that is one cell short.
pub fn take_string(
    m: Machine,
    stack: &mut [u32],
    cells: &mut [u32],
    script: &[u8],
    at: usize,
    size: usize,
) -> Result<Machine, Error>
    requires { (length script.now ≤ script_most) × StringOf script.now at size × Somewhere m stack.old cells.old }
    ensures { DoesString script.now at m stack.old stack.new cells.old cells.new result }
{
    m.has_room(stack, 1)?;
    let n = size as u32;
    if elements::free_cells(m, cells) < (n + 7) / 8 + 1 {
        return Err(Error::VmError);
    }
    let deeper = push_words(m, stack, TAG_NULL, 0);
    let made = elements::new_string(deeper, stack, cells, 0, n);
    strings::fill(made, stack, cells, 0, script, at);
    Ok(made)
}

// A literal name takes a slot, if it has none, and is pushed.
// Ruled out: stackoverflow where the dictionary is full too; a second slot for a name that has one.
pub fn take_literal(
    m: Machine,
    stack: &mut [u32],
    dict: &mut [u32],
    name: &[u8],
) -> Result<Machine, Error>
    requires { (length name.now ≤ name_most) × Names m stack.old dict.old }
    ensures { DoesNames (literal_taken name.now) m stack.old stack.new dict.old dict.new result }
{
    if let Some(slot) = dictionary::find(m, dict, name) {
        m.has_room(stack, 1)?;
        return Ok(push_name(m, stack, slot));
    }
    has_free_name(m, dict)?;
    m.has_room(stack, 1)?;
    let added = dictionary::add(m, dict, name);
    Ok(push_name(added, stack, m.names))
}

// An executable name's binding becomes pending.
// Ruled out: a name that has a slot and no binding taken for bound; execstackoverflow where the name is undefined.
pub fn take_executable(
    m: Machine,
    exec: &mut [u32],
    dict: &[u32],
    cells: &mut [u32],
    name: &[u8],
) -> Result<Machine, Error>
    requires { (length name.now ≤ name_most) × Bindings m exec.old dict.now cells.old }
    ensures { DoesBinding (executable_taken name.now) m exec.old exec.new dict.now cells.old cells.new result }
{
    let Some(slot) = dictionary::find(m, dict, name) else {
        return Err(Error::Undefined);
    };
    take_name(m, exec, dict, cells, slot)
}

// The same of a name whose slot is known.
pub fn take_name(
    m: Machine,
    exec: &mut [u32],
    dict: &[u32],
    cells: &mut [u32],
    slot: usize,
) -> Result<Machine, Error>
    requires { NamedBindings slot m exec.old dict.now cells.old }
    ensures { DoesNamed slot m exec.old exec.new dict.now cells.old cells.new result }
{
    if dict[DICTIONARY_WIDTH * slot + BINDING_TAG] == TAG_UNBOUND {
        return Err(Error::Undefined);
    }
    m.has_slot(exec)?;
    Ok(dictionary::pend_binding(m, exec, dict, cells, slot))
}

// The names of the brace group whose tokens are from `from` to `end` take slots, in reading order, those of inner groups too. Words past the names that
// there were may have changed, where there is no room for all: the machine still stands.
// Ruled out: an inner group's names left out; limitcheck where the last name has a slot already.
pub fn add_names(
    m: Machine,
    dict: &mut [u32],
    script: &[u8],
    from: usize,
    end: usize,
) -> Result<Machine, Error>
    requires { (length script.now ≤ script_most) × Group script.now from end × Dictionary m dict.old }
    ensures { AddsNames script.now from end m dict.old dict.new result }
{
    let mut r = m;
    let mut at = from;
    while at < end {
        let (name, next) = meet(script, at);
        at = next;
        let Some((start, size)) = name else {
            continue;
        };
        r = add_name(r, dict, &script[start..start + size])?;
    }
    Ok(r)
}

// The literal name with this slot is pushed.
// Ruled out: an executable name; the slot of another name.
pub fn push_name(m: Machine, stack: &mut [u32], slot: usize) -> Machine
    requires { (slot < dictionary_most) × (2 * m.depth + 2 ≤ length stack.old) × (length stack.old ≤ stack_words_most) }
    ensures pushes_name { PushesName slot m result stack.old stack.new }
    ensures depth_value { (result.depth ≡ m.depth + 1) × (result.names ≡ m.names) × (result.frames ≡ m.frames) × (result.lists ≡ m.lists) }
{
    push_words(m, stack, TAG_LITERAL, slot as u32)
}

// Two words go above the topmost item.
// Ruled out: the payload below the tag; a cell counted for them.
pub fn push_words(m: Machine, stack: &mut [u32], tag: u32, payload: u32) -> Machine
    requires { (2 * m.depth + 2 ≤ length stack.old) × (length stack.old ≤ stack_words_most) }
    ensures { PushesWords tag payload m result stack.old stack.new }
{
    let n = m.depth;
    stack[STACK_WIDTH * n] = tag;
    stack[STACK_WIDTH * n + ITEM_PAYLOAD] = payload;
    let mut r = m;
    r.depth = n + 1;
    r
}

// A name takes a slot, if it has none.
fn add_name(m: Machine, dict: &mut [u32], name: &[u8]) -> Result<Machine, Error>
    requires { (length name.now ≤ name_most) × Dictionary m dict.old }
    ensures { AddsName name.now m dict.old dict.new result }
{
    if dictionary::find(m, dict, name).is_some() {
        return Ok(m);
    }
    has_free_name(m, dict)?;
    Ok(dictionary::add(m, dict, name))
}

// Whether the dictionary has a slot for one name more.
// Ruled out: limitcheck where the last slot is free.
fn has_free_name(m: Machine, dict: &[u32]) -> Result<(), Error>
    requires { (12 * m.names ≤ length dict.now) × (length dict.now ≤ dictionary_words_most) }
    ensures { MatchResult result (λ u. 12 * m.names + 12 ≤ length dict.now) (λ e. (length dict.now < 12 * m.names + 12) × (e ≡ LimitCheck)) }
{
    if dict.len() < DICTIONARY_WIDTH * m.names + DICTIONARY_WIDTH {
        return Err(Error::LimitCheck);
    }
    Ok(())
}

// Where the bytes of a name are and how many, if the token from `at` on is one, and the offset after that token. The group goes on there and has been judged,
// so no fault is met.
fn meet(script: &[u8], at: usize) -> (Option<(usize, usize)>, usize)
    requires { (length script.now ≤ script_most) × Ahead script.now at }
    ensures { MetAt script.now at result }
{
    let start = token::skip(script, at);
    let (read, next) = token::token_at(script, start).unwrap();
    match read {
        Token::ExecutableName(begins, size) => (Some((begins, size)), next),
        Token::LiteralName(begins, size) => (Some((begins, size)), next),
        _ => (None, next),
    }
}
