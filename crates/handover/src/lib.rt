// A failing step's error is handed over to its handler (02, W1): what failed counts as taken, the names of the error and of its command are stored, and the
// handler becomes pending. Nothing has changed where there is no handler, or no execution slot for it.
#![tactic(auto)]

ghost use Rattle.std.specs.Prelude.{◌≡◌, ◌+◌, ◌*◌, ◌≤◌, length};
ghost use Rattle.semantics.specs.Sizes.{name_most, dictionary_words_most};
ghost use Rattle.machine.specs.FrameMoves.{Somewhere, MovesFrames};
ghost use Rattle.handover.specs.Handover.{Passable, passed_top, HasSlot, MayKnow, Knows, KnowsSlot, NamesSomewhere, KnowsName, MayHand, HandsOver};

use ending::Command;
use frames::{FOR, PENDING, REPEAT, RUNNING};
use machine::{FRAME_INCREMENT, FRAME_NEXT, Machine, TAG_UNBOUND};
use semantics::{DICTIONARY_WIDTH, EXEC_WIDTH, Error};

// A machine whose dictionary knows a name, and the word for the name: one more than its slot, 0 for none.
#[derive(Clone, Copy)]
pub struct Known {
    pub machine: Machine,
    pub word: u32,
}

// The machine in which the handler has taken over, if it has.
// Ruled out: a handler that runs while what failed stays; an error handed over with no slot for its handler; names stored where it is not.
pub fn hand_over(
    m: Machine,
    script: &[u8],
    exec: &mut [u32],
    dict: &mut [u32],
    cells: &mut [u32],
    e: Error,
    command: Command,
) -> Option<Machine>
    requires { MayHand script.now command m exec.old dict.old cells.old }
    ensures { HandsOver script.now e command m exec.old exec.new dict.old dict.new cells.old cells.new result }
{
    let row = handlers::row_of(e);
    if handlers::handler_tag(dict, row) == TAG_UNBOUND {
        return None;
    }
    if !has_slot(m, exec) {
        return None;
    }
    let passed = pass_top(m, exec, cells);
    let known = know_command(passed, dict, script, command);
    let error = handlers::name_slot(dict, row) + 1;
    handlers::note(dict, error, known.word);
    Some(handlers::pend_handler(known.machine, exec, dict, cells, row))
}

// Whether an execution slot is free once what failed is taken: a pending object's own slot is.
fn has_slot(m: Machine, exec: &[u32]) -> bool
    requires { 8 * m.frames ≤ length exec.now }
    ensures { HasSlot m exec.now result }
{
    if m.frames == 0 {
        return EXEC_WIDTH <= exec.len();
    }
    let k = m.frames - 1;
    if exec[EXEC_WIDTH * k] == PENDING {
        return true;
    }
    EXEC_WIDTH * m.frames + EXEC_WIDTH <= exec.len()
}

// The object or repetition of the topmost slot counts as taken.
// Ruled out: a pending object that stays; a procedure that does not go on; a `for` whose sum wraps.
fn pass_top(m: Machine, exec: &mut [u32], cells: &mut [u32]) -> Machine
    requires { Passable m exec.old × Somewhere m exec.old cells.old }
    ensures { MovesFrames passed_top m result exec.old exec.new cells.old cells.new }
{
    if m.frames == 0 {
        return m;
    }
    let k = m.frames - 1;
    let kind = exec[EXEC_WIDTH * k];
    if kind == PENDING {
        return m.drop_frame(exec, cells);
    }
    if kind == RUNNING {
        frames::advance(m, exec, cells);
        return m;
    }
    let n = exec[EXEC_WIDTH * k + FRAME_NEXT];
    let other = exec[EXEC_WIDTH * k + FRAME_INCREMENT];
    if kind == REPEAT {
        if n == 0 {
            return m;
        }
        frames::reset_top(m, exec, REPEAT, n - 1, other);
        return m;
    }
    if kind == FOR {
        frames::reset_top(
            m,
            exec,
            turns::kind_after(n, other),
            word::add(n, other),
            other,
        );
    }
    m
}

// The name of a command gets its slot, if it has none and one is free.
fn know_command(m: Machine, dict: &mut [u32], script: &[u8], command: Command) -> Known
    requires { MayKnow script.now command m dict.old }
    ensures { Knows script.now command m dict.old dict.new result }
{
    match command {
        Command::Nothing => Known {
            machine: m,
            word: 0,
        },
        Command::Operator(k) => Known {
            machine: m,
            word: k + 1,
        },
        Command::Name(k) => Known {
            machine: m,
            word: known_word(dict, k),
        },
        Command::Token(at, size) => know_name(m, dict, &script[at..at + size]),
        Command::Taken(_) => Known {
            machine: m,
            word: 0,
        },
    }
}

// The word for the name of a slot: none for the empty name.
fn known_word(dict: &[u32], slot: u32) -> u32
    requires { (12 * slot + 12 ≤ length dict.now) × (length dict.now ≤ dictionary_words_most) }
    ensures { KnowsSlot slot dict.now result }
{
    if dict[DICTIONARY_WIDTH * slot as usize] == 0 {
        return 0;
    }
    slot + 1
}

// A name of the script gets its slot, if it has none and one is free.
fn know_name(m: Machine, dict: &mut [u32], name: &[u8]) -> Known
    requires { (length name.now ≤ name_most) × NamesSomewhere m dict.old }
    ensures { KnowsName name.now m dict.old dict.new result }
{
    if name.len() == 0 {
        return Known {
            machine: m,
            word: 0,
        };
    }
    if let Some(k) = dictionary::find(m, dict, name) {
        return Known {
            machine: m,
            word: k as u32 + 1,
        };
    }
    if dict.len() < DICTIONARY_WIDTH * m.names + DICTIONARY_WIDTH {
        return Known {
            machine: m,
            word: 0,
        };
    }
    let r = dictionary::add(m, dict, name);
    Known {
        machine: r,
        word: m.names as u32 + 1,
    }
}
