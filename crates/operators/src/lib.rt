// The operators by their numbers, which are their places in the definition's table: `frequent` those below getinterval, `rare` the rest. Each family is lent
// only what its operators touch; `rare` is lent everything, so that any operator can be added there.
#![tactic(auto)]

ghost use Rattle.std.specs.Prelude.{◌≡◌, ◌*◌, ◌≤◌, ◌<◌, length};
ghost use Rattle.semantics.specs.Sizes.{operator_count};
ghost use Rattle.machine.specs.Rep.{Somewhere as StackSomewhere};
ghost use Rattle.machine.specs.Room.{DoesStack, DoesHeap};
ghost use Rattle.machine.specs.FrameMoves.{Somewhere};
ghost use Rattle.frames.specs.Moves.{SomewhereAll};
ghost use Rattle.control_operators.specs.Promises.{DoesFrames, DoesCells};
ghost use Rattle.dictionary_operators.specs.Promises.{Represented, DoesDictionary};
ghost use Rattle.output_operators.specs.Output.{SomewhereLog, DoesLog};
ghost use Rattle.operators.specs.Titles.{perform_at, Everywhere, DoesAll, EverywhereButLog, DoesButLog};

use machine::Machine;
use semantics::Error;

// The number of getinterval, the first of the operators that a run meets seldom.
pub const RARE: u32 = 42;

// add, sub, mul, idiv, mod and abs.
fn arithmetic(k: u32, m: Machine, stack: &mut [u32]) -> Result<Machine, Error>
    requires { (6 ≤ k) × (k < 12) × (2 * m.depth ≤ length stack.old) }
    ensures { DoesStack (perform_at k) m stack.old stack.new result }
{
    match k {
        6 => number_operators::add(m, stack),
        7 => number_operators::sub(m, stack),
        8 => number_operators::mul(m, stack),
        9 => number_operators::idiv(m, stack),
        10 => number_operators::rem(m, stack),
        _ => number_operators::abs(m, stack),
    }
}

// neg, bitshift, not, and, or and xor.
fn bits(k: u32, m: Machine, stack: &mut [u32]) -> Result<Machine, Error>
    requires { (12 ≤ k) × (k < 18) × (2 * m.depth ≤ length stack.old) }
    ensures { DoesStack (perform_at k) m stack.old stack.new result }
{
    match k {
        12 => number_operators::neg(m, stack),
        13 => number_operators::bitshift(m, stack),
        14 => number_operators::bit_not(m, stack),
        15 => number_operators::bit_and(m, stack),
        16 => number_operators::bit_or(m, stack),
        _ => number_operators::bit_xor(m, stack),
    }
}

// lt, le, gt and ge.
fn comparisons(k: u32, m: Machine, stack: &mut [u32]) -> Result<Machine, Error>
    requires { (20 ≤ k) × (k < 24) × (2 * m.depth ≤ length stack.old) }
    ensures { DoesStack (perform_at k) m stack.old stack.new result }
{
    match k {
        20 => number_operators::lt(m, stack),
        21 => number_operators::le(m, stack),
        22 => number_operators::gt(m, stack),
        _ => number_operators::ge(m, stack),
    }
}

// dup, exch, pop, index, copy and roll.
fn rearrangements(
    k: u32,
    m: Machine,
    stack: &mut [u32],
    cells: &mut [u32],
) -> Result<Machine, Error>
    requires { (k < 6) × StackSomewhere m stack.old cells.old }
    ensures { DoesHeap (perform_at k) m stack.old stack.new cells.old cells.new result }
{
    match k {
        0 => stack_operators::dup(m, stack, cells),
        1 => stack_operators::exch(m, stack),
        2 => stack_operators::pop(m, stack, cells),
        3 => stack_operators::index(m, stack, cells),
        4 => stack_operators::copy(m, stack, cells),
        _ => stack_operators::roll(m, stack, cells),
    }
}

// exec, if, ifelse, loop, repeat and for.
fn bodies(
    k: u32,
    m: Machine,
    stack: &[u32],
    exec: &mut [u32],
    cells: &mut [u32],
) -> Result<Machine, Error>
    requires { (27 ≤ k) × (k < 33) × SomewhereAll m stack.now exec.old cells.old }
    ensures { DoesFrames (perform_at k) m stack.now stack.now exec.old exec.new cells.old cells.new result }
{
    match k {
        27 => control_operators::exec_(m, stack, exec),
        28 => control_operators::if_(m, stack, exec, cells),
        29 => control_operators::ifelse(m, stack, exec, cells),
        30 => control_operators::loop_(m, stack, exec),
        31 => control_operators::repeat_(m, stack, exec),
        _ => control_operators::for_(m, stack, exec),
    }
}

// exit, continue and stop.
fn endings(k: u32, m: Machine, exec: &[u32], cells: &mut [u32]) -> Result<Machine, Error>
    requires { (33 ≤ k) × (k < 36) × Somewhere m exec.now cells.old }
    ensures { DoesCells (perform_at k) m exec.now cells.old cells.new result }
{
    match k {
        33 => control_operators::exit(m, exec, cells),
        34 => control_operators::continue_(m, exec, cells),
        _ => control_operators::stop(m),
    }
}

// eq and ne.
fn equalities(k: u32, m: Machine, stack: &mut [u32], cells: &mut [u32]) -> Result<Machine, Error>
    requires { (18 ≤ k) × (k < 20) × StackSomewhere m stack.old cells.old }
    ensures { DoesHeap (perform_at k) m stack.old stack.new cells.old cells.new result }
{
    equality::compare(m, stack, cells, k == 19)
}

// array, mark, ], length, get and put.
fn arrays(k: u32, m: Machine, stack: &mut [u32], cells: &mut [u32]) -> Result<Machine, Error>
    requires { (36 ≤ k) × (k < 42) × StackSomewhere m stack.old cells.old }
    ensures { DoesHeap (perform_at k) m stack.old stack.new cells.old cells.new result }
{
    match k {
        36 => array_operators::array(m, stack, cells),
        37 => stack_operators::mark(m, stack),
        38 => array_operators::close(m, stack, cells),
        39 => array_operators::length(m, stack, cells),
        40 => array_operators::get(m, stack, cells),
        _ => array_operators::put(m, stack, cells),
    }
}

// getinterval, putinterval, aload, astore and string.
fn intervals(k: u32, m: Machine, stack: &mut [u32], cells: &mut [u32]) -> Result<Machine, Error>
    requires { (42 ≤ k) × (k < 47) × StackSomewhere m stack.old cells.old }
    ensures { DoesHeap (perform_at k) m stack.old stack.new cells.old cells.new result }
{
    match k {
        42 => interval_operators::getinterval(m, stack, cells),
        43 => interval_operators::putinterval(m, stack, cells),
        44 => array_operators::aload(m, stack, cells),
        45 => array_operators::astore(m, stack, cells),
        _ => array_operators::string(m, stack, cells),
    }
}

// def, load and bind.
fn bindings(
    k: u32,
    m: Machine,
    stack: &mut [u32],
    dict: &mut [u32],
    cells: &mut [u32],
) -> Result<Machine, Error>
    requires { (24 ≤ k) × (k < 27) × Represented m stack.old dict.old cells.old }
    ensures { DoesDictionary (perform_at k) m stack.old stack.new dict.old dict.new cells.old cells.new result }
{
    match k {
        24 => dictionary_operators::def(m, stack, dict, cells),
        25 => dictionary_operators::load(m, stack, dict, cells),
        _ => dictionary_operators::bind(m, stack, dict, cells),
    }
}

// The operators below exec: those that touch stack, dictionary and cells alone.
fn lower(
    k: u32,
    m: Machine,
    stack: &mut [u32],
    dict: &mut [u32],
    cells: &mut [u32],
) -> Result<Machine, Error>
    requires { (k < 27) × Represented m stack.old dict.old cells.old }
    ensures { DoesDictionary (perform_at k) m stack.old stack.new dict.old dict.new cells.old cells.new result }
{
    if k < 6 {
        return rearrangements(k, m, stack, cells);
    }
    if k < 12 {
        return arithmetic(k, m, stack);
    }
    if k < 18 {
        return bits(k, m, stack);
    }
    if k < 20 {
        return equalities(k, m, stack, cells);
    }
    if k < 24 {
        return comparisons(k, m, stack);
    }
    bindings(k, m, stack, dict, cells)
}

// echo, echostack and print.
fn outputs(
    k: u32,
    m: Machine,
    stack: &[u32],
    dict: &[u32],
    cells: &mut [u32],
    log: &mut [u8],
) -> Result<Machine, Error>
    requires { (51 ≤ k) × (k < 54) × SomewhereLog m stack.now dict.now cells.old log.old }
    ensures { DoesLog (perform_at k) m stack.now dict.now cells.old cells.new log.old log.new result }
{
    match k {
        51 => output_operators::echo(m, stack, dict, cells, log),
        52 => output_operators::echostack(m, stack, dict, cells, log),
        _ => output_operators::print(m, stack, cells, log),
    }
}

// cvs, cvx, cvlit and cvn.
fn converters(
    k: u32,
    m: Machine,
    stack: &mut [u32],
    dict: &mut [u32],
    cells: &mut [u32],
) -> Result<Machine, Error>
    requires { (47 ≤ k) × (k < 51) × Represented m stack.old dict.old cells.old }
    ensures { DoesDictionary (perform_at k) m stack.old stack.new dict.old dict.new cells.old cells.new result }
{
    match k {
        47 => conversions::cvs(m, stack, dict, cells),
        48 => stack_operators::cvx(m, stack),
        49 => stack_operators::cvlit(m, stack),
        _ => dictionary_operators::cvn(m, stack, dict, cells),
    }
}

// onerror, errorname and command.
fn errors(
    k: u32,
    m: Machine,
    stack: &mut [u32],
    dict: &mut [u32],
    cells: &mut [u32],
) -> Result<Machine, Error>
    requires { (54 ≤ k) × (k < 57) × Represented m stack.old dict.old cells.old }
    ensures { DoesDictionary (perform_at k) m stack.old stack.new dict.old dict.new cells.old cells.new result }
{
    match k {
        54 => error_operators::onerror(m, stack, dict, cells),
        55 => error_operators::errorname(m, stack, dict, cells),
        _ => error_operators::command(m, stack, dict, cells),
    }
}

// ones, lowpeg and highpeg.
fn pegs(k: u32, m: Machine, stack: &mut [u32]) -> Result<Machine, Error>
    requires { (57 ≤ k) × (k < 60) × (2 * m.depth ≤ length stack.old) }
    ensures { DoesStack (perform_at k) m stack.old stack.new result }
{
    if k == 57 {
        return number_operators::ones(m, stack);
    }
    number_operators::peg(m, stack, k == 59)
}

// The operators from exec to put.
fn upper(
    k: u32,
    m: Machine,
    stack: &mut [u32],
    exec: &mut [u32],
    cells: &mut [u32],
) -> Result<Machine, Error>
    requires { (27 ≤ k) × (k < 42) × SomewhereAll m stack.old exec.old cells.old }
    ensures { DoesFrames (perform_at k) m stack.old stack.new exec.old exec.new cells.old cells.new result }
{
    if k < 33 {
        return bodies(k, m, stack, exec, cells);
    }
    if k < 36 {
        return endings(k, m, exec, cells);
    }
    settled(arrays(k, m, stack, cells))
}

// The operators below getinterval, which a run meets most. They are kept apart from the rest so that the compiler puts them into the loop of steps.
// Ruled out: two operators exchanged; one that is not in the table.
pub fn frequent(
    k: u32,
    m: Machine,
    stack: &mut [u32],
    exec: &mut [u32],
    dict: &mut [u32],
    cells: &mut [u32],
) -> Result<Machine, Error>
    requires { (k < 42) × EverywhereButLog m stack.old exec.old dict.old cells.old }
    ensures { DoesButLog (perform_at k) m stack.old stack.new exec.old exec.new dict.old dict.new cells.old cells.new result }
{
    if k < 27 {
        return lower(k, m, stack, dict, cells);
    }
    upper(k, m, stack, exec, cells)
}

// The operators from getinterval on.
// Ruled out: two operators exchanged; one that is not in the table.
pub fn rare(
    k: u32,
    m: Machine,
    stack: &mut [u32],
    exec: &mut [u32],
    dict: &mut [u32],
    cells: &mut [u32],
    log: &mut [u8],
) -> Result<Machine, Error>
    requires { (42 ≤ k) × (k < operator_count) × Everywhere m stack.old exec.old dict.old cells.old log.old }
    ensures { DoesAll (perform_at k) m stack.old stack.new exec.old exec.new dict.old dict.new cells.old cells.new log.old log.new result }
{
    if k < 47 {
        return intervals(k, m, stack, cells);
    }
    if k < 51 {
        return converters(k, m, stack, dict, cells);
    }
    if k < 54 {
        return outputs(k, m, stack, dict, cells, log);
    }
    if k < 57 {
        return errors(k, m, stack, dict, cells);
    }
    if k < 60 {
        return pegs(k, m, stack);
    }
    array_operators::readonly(m, stack, cells)
}

// The same answer, made anew field by field: the compiler then keeps the fields of the state apart.
pub fn settled(did: Result<Machine, Error>) -> Result<Machine, Error>
    ensures { result ≡ did }
{
    match did {
        Ok(m) => Ok(m.fields()),
        Err(e) => Err(e),
    }
}
