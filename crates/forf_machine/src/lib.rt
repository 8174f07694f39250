// The machine of Forf in the lent words, and the 26 words that act on it: the operand stack, the execution stack and the memory. Each function does exactly
// what the definition's operator does, errors and their order and the test of room included.
#![tactic(auto)]

ghost use Rattle.std.specs.Prelude.{◌≡◌, ◌+◌, ◌*◌, ◌≤◌, ◌<◌, length};
ghost use Rattle.forf_semantics.specs.Operators.{if', ifelse, pop, dup, exch, mset, mget};
ghost use Rattle.forf_machine.specs.Slots.{slots, put_slot};
ghost use Rattle.forf_machine.specs.Does.{Does, OnDepth, OnStack, OnExec, OnMemory, Pushes, Pends, Lent};
ghost use Rattle.forf_machine.specs.Operands.{one_int, two_ints, result_of};
ghost use Rattle.forf_machine.specs.Steps.{StepsOne, StepsTwo};
ghost use Rattle.forf_machine.specs.Titles.{action_at, place_of};

use forf_semantics::Error;
use semantics::{EXEC_WIDTH, STACK_WIDTH};

mod titles;

use titles::word_at;
pub use titles::{Word, operator_of};

// What the first word of a stack slot says that the second is: an integer's 32 bits, or the offset after a substack's brace.
pub const TAG_INTEGER: u32 = 0;

pub const TAG_SUBSTACK: u32 = 1;

// What the first word of an execution slot says that the second is: the substack that is to run, or the offset of the next item of one that runs.
pub const PENDING: u32 = 0;

pub const RUNNING: u32 = 1;

const MEMORY_SLOTS: u32 = 32;

// The small state: how many slots of each stack are in use.
#[derive(Clone, Copy)]
pub struct Machine {
    pub depth: usize,
    pub frames: usize,
}

// ---- slots

// The two words of slot i, in slots of so many words.
pub fn put(words: &mut [u32], width: usize, i: usize, tag: u32, payload: u32)
    requires { width * i + 1 < length words.old }
    ensures { words.new ≡ put_slot width i tag payload words.old }
{
    words[width * i] = tag;
    words[width * i + 1] = payload;
}

impl Machine {
    pub fn with_depth(self, depth: usize) -> Machine
        ensures { result ≡ record { depth = depth; frames = self.frames } }
    {
        Machine { depth, ..self }
    }

    // A value on the top of the stack.
    pub fn push(self, stack: &mut [u32], tag: u32, payload: u32) -> Result<Machine, Error>
        ensures { Pushes self tag payload stack.old stack.new result }
    {
        let depth = self.depth;
        if stack.len() / STACK_WIDTH <= depth {
            return Err(Error::StackOverflow);
        }
        put(stack, STACK_WIDTH, depth, tag, payload);
        Ok(self.with_depth(depth + 1))
    }

    // ---- operands

    fn one_int(self, stack: &[u32]) -> Result<u32, Error>
        requires { 2 * self.depth ≤ length stack.now }
        ensures { result_of result ≡ one_int (slots 2 self.depth stack.now) }
    {
        let depth = self.depth;
        if depth < 1 {
            return Err(Error::StackUnderflow);
        }
        let x = depth - 1;
        if stack[STACK_WIDTH * x] != TAG_INTEGER {
            return Err(Error::TypeCheck);
        }
        Ok(stack[STACK_WIDTH * x + 1])
    }

    // The lower first.
    fn two_ints(self, stack: &[u32]) -> Result<(u32, u32), Error>
        requires { 2 * self.depth ≤ length stack.now }
        ensures { result_of result ≡ two_ints (slots 2 self.depth stack.now) }
    {
        let depth = self.depth;
        if depth < 2 {
            return Err(Error::StackUnderflow);
        }
        let x = depth - 1;
        let y = depth - 2;
        if stack[STACK_WIDTH * y] != TAG_INTEGER {
            return Err(Error::TypeCheck);
        }
        if stack[STACK_WIDTH * x] != TAG_INTEGER {
            return Err(Error::TypeCheck);
        }
        Ok((stack[STACK_WIDTH * y + 1], stack[STACK_WIDTH * x + 1]))
    }
}

// ---- the words

// The word of a number acts: the numbers are the places in the definition's table.
// Ruled out: another number's word; a word for a number past the table.
pub fn perform(
    k: u32,
    m: Machine,
    stack: &mut [u32],
    exec: &mut [u32],
    memory: &mut [u32],
) -> Result<Machine, Error>
    requires { Lent m stack.old exec.old memory.old }
    ensures { Does (action_at k) m stack.old stack.new exec.old exec.new memory.old memory.new result }
{
    perform_word(word_at(k), m, stack, exec, memory)
}

// A word acts; no word is undefined.
pub fn perform_word(
    word: Option<Word>,
    m: Machine,
    stack: &mut [u32],
    exec: &mut [u32],
    memory: &mut [u32],
) -> Result<Machine, Error>
    requires { Lent m stack.old exec.old memory.old }
    ensures { Does (action_at (place_of word)) m stack.old stack.new exec.old exec.new memory.old memory.new result }
{
    let Some(word) = word else {
        return Err(Error::Undefined);
    };
    match word {
        Word::Not => one_to_one(m, stack, |a| word::bit_not(a)),
        Word::IsZero => one_to_one(m, stack, |a| u32::from(word::eq(a, 0))),
        Word::Abs => one_to_one(m, stack, |a| word::abs(a)),
        Word::Add => two_to_one(m, stack, |b, a| Some(word::add(b, a))),
        Word::Sub => two_to_one(m, stack, |b, a| Some(word::sub(b, a))),
        Word::Mul => two_to_one(m, stack, |b, a| Some(word::mul(b, a))),
        Word::Div => two_to_one(m, stack, |b, a| word::idiv(b, a)),
        Word::Rem => two_to_one(m, stack, |b, a| word::rem(b, a)),
        Word::And => two_to_one(m, stack, |b, a| Some(word::bit_and(b, a))),
        Word::Or => two_to_one(m, stack, |b, a| Some(word::bit_or(b, a))),
        Word::Xor => two_to_one(m, stack, |b, a| Some(word::bit_xor(b, a))),
        Word::Left => two_to_one(m, stack, |b, a| Some(word::shift_left(b, a))),
        Word::Right => two_to_one(m, stack, |b, a| Some(word::shift_right(b, a))),
        Word::Gt => two_to_one(m, stack, |b, a| Some(u32::from(word::gt(b, a)))),
        Word::Ge => two_to_one(m, stack, |b, a| Some(u32::from(word::ge(b, a)))),
        Word::Lt => two_to_one(m, stack, |b, a| Some(u32::from(word::lt(b, a)))),
        Word::Le => two_to_one(m, stack, |b, a| Some(u32::from(word::le(b, a)))),
        Word::Eq => two_to_one(m, stack, |b, a| Some(u32::from(word::eq(b, a)))),
        Word::Ne => two_to_one(m, stack, |b, a| Some(u32::from(word::ne(b, a)))),
        Word::If => branch(m, stack, exec),
        Word::Ifelse => choose(m, stack, exec),
        Word::Pop => discard(m),
        Word::Dup => duplicate(m, stack),
        Word::Exch => exchange(m, stack),
        Word::Mset => store(m, stack, memory),
        Word::Mget => fetch(m, stack, memory),
    }
}

// An integer gives way to what f makes of it.
fn one_to_one<F: FnOnce(u32) -> u32>(m: Machine, stack: &mut [u32], f: F) -> Result<Machine, Error>
    requires callable { F.IsAlwaysCallable f }
    requires deep { 2 * m.depth ≤ length stack.old }
    ensures { StepsOne (F.post f) m stack.old stack.new result }
{
    let a = m.one_int(stack)?;
    put(stack, STACK_WIDTH, m.depth - 1, TAG_INTEGER, f(a));
    Ok(m)
}

// Two give way to what f makes of them, the lower first. None by zero, which only / and % know.
fn two_to_one<F: FnOnce(u32, u32) -> Option<u32>>(
    m: Machine,
    stack: &mut [u32],
    f: F,
) -> Result<Machine, Error>
    requires callable { F.IsAlwaysCallable f }
    requires deep { 2 * m.depth ≤ length stack.old }
    ensures { StepsTwo (F.post f) m stack.old stack.new result }
{
    let (b, a) = m.two_ints(stack)?;
    let w = f(b, a).ok_or(Error::UndefinedResult)?;
    put(stack, STACK_WIDTH, m.depth - 2, TAG_INTEGER, w);
    Ok(m.with_depth(m.depth - 1))
}

// x s if
fn branch(m: Machine, stack: &[u32], exec: &mut [u32]) -> Result<Machine, Error>
    requires { 2 * m.depth ≤ length stack.now }
    ensures { OnExec if' m stack.now exec.old exec.new result }
{
    let depth = m.depth;
    if depth < 2 {
        return Err(Error::StackUnderflow);
    }
    let s = depth - 1;
    let x = depth - 2;
    if stack[STACK_WIDTH * x] != TAG_INTEGER {
        return Err(Error::TypeCheck);
    }
    if stack[STACK_WIDTH * s] == TAG_INTEGER {
        return Err(Error::TypeCheck);
    }
    if stack[STACK_WIDTH * x + 1] == 0 {
        return Ok(m.with_depth(x));
    }
    pend(m.with_depth(x), exec, stack[STACK_WIDTH * s + 1])
}

// x s t ifelse
fn choose(m: Machine, stack: &[u32], exec: &mut [u32]) -> Result<Machine, Error>
    requires { 2 * m.depth ≤ length stack.now }
    ensures { OnExec ifelse m stack.now exec.old exec.new result }
{
    let depth = m.depth;
    if depth < 3 {
        return Err(Error::StackUnderflow);
    }
    let t = depth - 1;
    let s = depth - 2;
    let x = depth - 3;
    if stack[STACK_WIDTH * x] != TAG_INTEGER {
        return Err(Error::TypeCheck);
    }
    if stack[STACK_WIDTH * s] == TAG_INTEGER {
        return Err(Error::TypeCheck);
    }
    if stack[STACK_WIDTH * t] == TAG_INTEGER {
        return Err(Error::TypeCheck);
    }
    if stack[STACK_WIDTH * x + 1] == 0 {
        return pend(m.with_depth(x), exec, stack[STACK_WIDTH * t + 1]);
    }
    pend(m.with_depth(x), exec, stack[STACK_WIDTH * s + 1])
}

// A substack becomes pending.
fn pend(m: Machine, exec: &mut [u32], body: u32) -> Result<Machine, Error>
    ensures { Pends m body exec.old exec.new result }
{
    let frames = m.frames;
    if exec.len() / EXEC_WIDTH <= frames {
        return Err(Error::ExecStackOverflow);
    }
    put(exec, EXEC_WIDTH, frames, PENDING, body);
    Ok(Machine {
        frames: frames + 1,
        ..m
    })
}

fn discard(m: Machine) -> Result<Machine, Error>
    ensures { OnDepth pop m result }
{
    if m.depth < 1 {
        return Err(Error::StackUnderflow);
    }
    Ok(m.with_depth(m.depth - 1))
}

fn duplicate(m: Machine, stack: &mut [u32]) -> Result<Machine, Error>
    requires { 2 * m.depth ≤ length stack.old }
    ensures { OnStack (dup) m stack.old stack.new result }
{
    if m.depth < 1 {
        return Err(Error::StackUnderflow);
    }
    let x = m.depth - 1;
    let tag = stack[STACK_WIDTH * x];
    let payload = stack[STACK_WIDTH * x + 1];
    m.push(stack, tag, payload)
}

fn exchange(m: Machine, stack: &mut [u32]) -> Result<Machine, Error>
    requires { 2 * m.depth ≤ length stack.old }
    ensures { OnStack (exch) m stack.old stack.new result }
{
    if m.depth < 2 {
        return Err(Error::StackUnderflow);
    }
    let x = m.depth - 1;
    let y = m.depth - 2;
    let upper = stack[STACK_WIDTH * x];
    let above = stack[STACK_WIDTH * x + 1];
    let lower = stack[STACK_WIDTH * y];
    let below = stack[STACK_WIDTH * y + 1];
    put(stack, STACK_WIDTH, y, upper, above);
    put(stack, STACK_WIDTH, x, lower, below);
    Ok(m)
}

// y x mset
fn store(m: Machine, stack: &[u32], memory: &mut [u32]) -> Result<Machine, Error>
    requires { (2 * m.depth ≤ length stack.now) × (length memory.old ≡ 32) }
    ensures { OnMemory mset m stack.now stack.now memory.old memory.new result }
{
    let (b, a) = m.two_ints(stack)?;
    if MEMORY_SLOTS <= a {
        return Err(Error::RangeCheck);
    }
    memory[a as usize] = b;
    Ok(m.with_depth(m.depth - 2))
}

// x mget
fn fetch(m: Machine, stack: &mut [u32], memory: &[u32]) -> Result<Machine, Error>
    requires { (2 * m.depth ≤ length stack.old) × (length memory.now ≡ 32) }
    ensures { OnMemory mget m stack.old stack.new memory.now memory.now result }
{
    let a = m.one_int(stack)?;
    if MEMORY_SLOTS <= a {
        return Err(Error::RangeCheck);
    }
    put(
        stack,
        STACK_WIDTH,
        m.depth - 1,
        TAG_INTEGER,
        memory[a as usize],
    );
    Ok(m)
}
