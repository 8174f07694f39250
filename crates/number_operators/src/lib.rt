// The operators on integers and truth values: arithmetic, shifts, pegs, logic and comparisons. Each does exactly what the definition's operator of its name
// does, errors and their order and the test of room included, and touches the stack's words alone.
#![tactic(auto)]

ghost use Rattle.std.specs.Prelude.{◌≡◌, length, ◌*◌, ◌≤◌};
ghost use Rattle.semantics.specs.Text.{bytes};
ghost use Rattle.semantics.specs.Operators.{perform};
ghost use Rattle.machine.specs.Room.{DoesStack};
ghost use Rattle.store.specs.Rep.{bit as bit_of};
ghost use Rattle.number_operators.specs.Pegs.{peg_name};
ghost use Rattle.number_operators.specs.Steps.{StepsOne, StepsTwo, StepsLogical};

use machine::{Logical, Machine, TAG_BOOLEAN, TAG_INTEGER};
use semantics::Error;

pub fn add(m: Machine, stack: &mut [u32]) -> Result<Machine, Error>
    requires { 2 * m.depth ≤ length stack.old }
    ensures { DoesStack (perform (bytes "add")) m stack.old stack.new result }
{
    two(m, stack, TAG_INTEGER, |a, b| Ok(word::add(a, b)))
}

pub fn sub(m: Machine, stack: &mut [u32]) -> Result<Machine, Error>
    requires { 2 * m.depth ≤ length stack.old }
    ensures { DoesStack (perform (bytes "sub")) m stack.old stack.new result }
{
    two(m, stack, TAG_INTEGER, |a, b| Ok(word::sub(a, b)))
}

pub fn mul(m: Machine, stack: &mut [u32]) -> Result<Machine, Error>
    requires { 2 * m.depth ≤ length stack.old }
    ensures { DoesStack (perform (bytes "mul")) m stack.old stack.new result }
{
    two(m, stack, TAG_INTEGER, |a, b| Ok(word::mul(a, b)))
}

pub fn idiv(m: Machine, stack: &mut [u32]) -> Result<Machine, Error>
    requires { 2 * m.depth ≤ length stack.old }
    ensures { DoesStack (perform (bytes "idiv")) m stack.old stack.new result }
{
    two(
        m,
        stack,
        TAG_INTEGER,
        |a, b| word::idiv(a, b).ok_or(Error::UndefinedResult),
    )
}

pub fn rem(m: Machine, stack: &mut [u32]) -> Result<Machine, Error>
    requires { 2 * m.depth ≤ length stack.old }
    ensures { DoesStack (perform (bytes "mod")) m stack.old stack.new result }
{
    two(
        m,
        stack,
        TAG_INTEGER,
        |a, b| word::rem(a, b).ok_or(Error::UndefinedResult),
    )
}

pub fn abs(m: Machine, stack: &mut [u32]) -> Result<Machine, Error>
    requires { 2 * m.depth ≤ length stack.old }
    ensures { DoesStack (perform (bytes "abs")) m stack.old stack.new result }
{
    one(m, stack, TAG_INTEGER, |a| Ok(word::abs(a)))
}

pub fn neg(m: Machine, stack: &mut [u32]) -> Result<Machine, Error>
    requires { 2 * m.depth ≤ length stack.old }
    ensures { DoesStack (perform (bytes "neg")) m stack.old stack.new result }
{
    one(m, stack, TAG_INTEGER, |a| Ok(word::neg(a)))
}

pub fn bitshift(m: Machine, stack: &mut [u32]) -> Result<Machine, Error>
    requires { 2 * m.depth ≤ length stack.old }
    ensures { DoesStack (perform (bytes "bitshift")) m stack.old stack.new result }
{
    two(m, stack, TAG_INTEGER, |a, b| Ok(word::bitshift(a, b)))
}

pub fn ones(m: Machine, stack: &mut [u32]) -> Result<Machine, Error>
    requires { 2 * m.depth ≤ length stack.old }
    ensures { DoesStack (perform (bytes "ones")) m stack.old stack.new result }
{
    one(m, stack, TAG_INTEGER, |a| Ok(word::ones(a)))
}

// lowpeg, or highpeg. Ruled out: a place of 0, and typecheck after undefinedresult.
pub fn peg(m: Machine, stack: &mut [u32], highest: bool) -> Result<Machine, Error>
    requires { 2 * m.depth ≤ length stack.old }
    ensures { DoesStack (perform (peg_name highest)) m stack.old stack.new result }
{
    if highest {
        return one(
            m,
            stack,
            TAG_INTEGER,
            |a| word::highest(a).ok_or(Error::UndefinedResult),
        );
    }
    one(
        m,
        stack,
        TAG_INTEGER,
        |a| word::lowest(a).ok_or(Error::UndefinedResult),
    )
}

// Of two words or two truth values. Ruled out: a truth value beside an integer, and truth values that give an integer.
pub fn bit_and(m: Machine, stack: &mut [u32]) -> Result<Machine, Error>
    requires { 2 * m.depth ≤ length stack.old }
    ensures { DoesStack (perform (bytes "and")) m stack.old stack.new result }
{
    logical(m, stack, |a, b| word::bit_and(a, b))
}

pub fn bit_or(m: Machine, stack: &mut [u32]) -> Result<Machine, Error>
    requires { 2 * m.depth ≤ length stack.old }
    ensures { DoesStack (perform (bytes "or")) m stack.old stack.new result }
{
    logical(m, stack, |a, b| word::bit_or(a, b))
}

pub fn bit_xor(m: Machine, stack: &mut [u32]) -> Result<Machine, Error>
    requires { 2 * m.depth ≤ length stack.old }
    ensures { DoesStack (perform (bytes "xor")) m stack.old stack.new result }
{
    logical(m, stack, |a, b| word::bit_xor(a, b))
}

pub fn bit_not(m: Machine, stack: &mut [u32]) -> Result<Machine, Error>
    requires { 2 * m.depth ≤ length stack.old }
    ensures { DoesStack (perform (bytes "not")) m stack.old stack.new result }
{
    match m.one_logical(stack)? {
        Logical::Words(a) => Ok(m.replace(stack, 1, TAG_INTEGER, word::bit_not(a))),
        Logical::Truths(a) => Ok(m.replace(stack, 1, TAG_BOOLEAN, word::bit_xor(a, 1))),
    }
}

pub fn lt(m: Machine, stack: &mut [u32]) -> Result<Machine, Error>
    requires { 2 * m.depth ≤ length stack.old }
    ensures { DoesStack (perform (bytes "lt")) m stack.old stack.new result }
{
    two(m, stack, TAG_BOOLEAN, |a, b| Ok(bit(word::lt(a, b))))
}

pub fn le(m: Machine, stack: &mut [u32]) -> Result<Machine, Error>
    requires { 2 * m.depth ≤ length stack.old }
    ensures { DoesStack (perform (bytes "le")) m stack.old stack.new result }
{
    two(m, stack, TAG_BOOLEAN, |a, b| Ok(bit(word::le(a, b))))
}

pub fn gt(m: Machine, stack: &mut [u32]) -> Result<Machine, Error>
    requires { 2 * m.depth ≤ length stack.old }
    ensures { DoesStack (perform (bytes "gt")) m stack.old stack.new result }
{
    two(m, stack, TAG_BOOLEAN, |a, b| Ok(bit(word::gt(a, b))))
}

pub fn ge(m: Machine, stack: &mut [u32]) -> Result<Machine, Error>
    requires { 2 * m.depth ≤ length stack.old }
    ensures { DoesStack (perform (bytes "ge")) m stack.old stack.new result }
{
    two(m, stack, TAG_BOOLEAN, |a, b| Ok(bit(word::ge(a, b))))
}

// Two integers give way to what f makes of their words, with this tag.
fn two<F: FnOnce(u32, u32) -> Result<u32, Error>>(
    m: Machine,
    stack: &mut [u32],
    tag: u32,
    f: F,
) -> Result<Machine, Error>
    requires callable { F.IsAlwaysCallable f }
    requires deep { 2 * m.depth ≤ length stack.old }
    ensures { StepsTwo (F.post f) tag m stack.old stack.new result }
{
    let (a, b) = m.two_ints(stack)?;
    let w = f(a, b)?;
    Ok(m.replace(stack, 2, tag, w))
}

// The same of one integer.
fn one<F: FnOnce(u32) -> Result<u32, Error>>(
    m: Machine,
    stack: &mut [u32],
    tag: u32,
    f: F,
) -> Result<Machine, Error>
    requires callable { F.IsAlwaysCallable f }
    requires deep { 2 * m.depth ≤ length stack.old }
    ensures { StepsOne (F.post f) tag m stack.old stack.new result }
{
    let a = m.one_int(stack)?;
    let w = f(a)?;
    Ok(m.replace(stack, 1, tag, w))
}

// Two words or two truth values give way to what f makes of their words, a value of their kind.
fn logical<F: FnOnce(u32, u32) -> u32>(
    m: Machine,
    stack: &mut [u32],
    f: F,
) -> Result<Machine, Error>
    requires callable { F.IsAlwaysCallable f }
    requires deep { 2 * m.depth ≤ length stack.old }
    ensures { StepsLogical (F.post f) m stack.old stack.new result }
{
    match m.two_logical(stack)? {
        Logical::Words((a, b)) => Ok(m.replace(stack, 2, TAG_INTEGER, f(a, b))),
        Logical::Truths((a, b)) => Ok(m.replace(stack, 2, TAG_BOOLEAN, f(a, b))),
    }
}

fn bit(b: bool) -> u32
    ensures { result ≡ bit_of b }
{
    if b { 1 } else { 0 }
}
