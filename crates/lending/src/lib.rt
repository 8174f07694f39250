// A run that starts with a string made and bound to a name: the string is lent before step 1, and the run goes on from there.
#![tactic(auto)]

ghost use Rattle.lending.specs.Lending.{MayLend, Lends, Ready, Carries};

use machine::{ITEM_PAYLOAD, Machine, TAG_NULL};
use runner::Proceeded;
use semantics::{DICTIONARY_WIDTH, NAME_COUNT, STACK_WIDTH};
use step::State;

// A string of these bytes is made and bound to a name that has no slot. It is made in the lowest slot of an empty stack, and let go there.
// Ruled out: a string that two places name; a byte left out; another name's binding changed.
pub fn lend(
    m: Machine,
    stack: &mut [u32],
    dict: &mut [u32],
    cells: &mut [u32],
    name: &[u8],
    contents: &[u8],
) -> Machine
    requires { MayLend m stack.old dict.old cells.old name.now contents.now }
    ensures { Lends m result stack.old stack.new dict.old dict.new cells.old cells.new name.now contents.now }
{
    let slot = m.names;
    let named = dictionary::add(m, dict, name);
    let pushed = taking::push_words(named, stack, TAG_NULL, 0);
    let made = elements::new_string(pushed, stack, cells, 0, contents.len() as u32);
    let h = stack[ITEM_PAYLOAD];
    strings::write_at(cells, h, contents);
    let bound = dictionary::bind_item(made, stack, dict, cells, slot, 0);
    bound.drop(stack, cells)
}

// The run with a string lent, where setup accepts and there is room for its slot and its cells.
// Ruled out: a string that is made after step 1; words past its slot changed before it.
pub fn carry_out(
    script: &[u8],
    fuel: u32,
    name: &[u8],
    contents: &[u8],
    stack: &mut [u32],
    exec: &mut [u32],
    dict: &mut [u32],
    cells: &mut [u32],
    log: &mut [u8],
    outcome: &mut [u8],
) -> Proceeded
    requires { Ready script.now fuel name.now contents.now stack.old exec.old dict.old cells.old log.old outcome.old }
    ensures { Carries script.now fuel name.now contents.now stack.old stack.new exec.old exec.new dict.old dict.new cells.old cells.new log.old log.new outcome.old outcome.new result }
{
    let m = start::begin(dict, cells);
    // the slots that lending touches
    let lent = lend(
        m,
        &mut stack[..STACK_WIDTH],
        &mut dict[..DICTIONARY_WIDTH * (NAME_COUNT + 1)],
        cells,
        name,
        contents,
    );
    let st = State {
        machine: lent,
        next: 0,
        at: 0,
        steps: 0,
    };
    runner::proceed(st, script, fuel, stack, exec, dict, cells, log, outcome)
}
