// The machine's small state, its slots, and what moves a value between places. Each function keeps `Rep`: the lent words stand for a machine of
// the definition, and the function does to that machine what its contract names.
#![tactic(auto)]

ghost use Rattle.std.specs.Prelude.{◌≡◌, ◌≢◌, ◌+◌, ◌*◌, ◌-◌, ◌≤◌, ◌<◌, length, set, MatchResult};
ghost use Rattle.machine.specs.Words.{item_tag, item_payload, frame_tag, frame_payload};
ghost use Rattle.machine.specs.Rep.{Somewhere, MovesStack, MovesHeap};
ghost use Rattle.machine.specs.Moves.{dropped, copied, copied_over, swapped, retagged, tag_as};
ghost use Rattle.machine.specs.FrameMoves.{Somewhere as SlotsSomewhere, MovesFrames, MovesItems, ForgetsFrame, frame_dropped, returned};
ghost use Rattle.machine.specs.Recount.{Placed, Recounts};
ghost use Rattle.machine.specs.Copies.{HeldItems, PushesValue, PutsValue};
ghost use Rattle.machine.specs.Operands.{FetchesOne, FetchesTwo, one_low, two_low, FetchesOneLogical, FetchesTwoLogical, one_logical_low, two_logical_low, Replaces, Pushes};
ghost use Rattle.semantics.specs.declared.Error.TheVariants.{StackUnderflow, StackOverflow, ExecStackOverflow, TypeCheck};

use heap::{FIRST_OBJECT, Lists, Value};
use semantics::{EXEC_WIDTH, Error, STACK_WIDTH};

// The words of slots, as specs/Words and specs/Rep have them: a stack item's payload after its tag; an execution slot's value after its kind, and the numbers after that, of a
// running procedure or of a loop.
pub const ITEM_PAYLOAD: usize = 1;

pub const FRAME_TAG: usize = 1;

pub const FRAME_PAYLOAD: usize = 2;

pub const FRAME_CELL: usize = 3;

pub const FRAME_LEFT: usize = 4;

pub const FRAME_NEXT: usize = 3;

pub const FRAME_INCREMENT: usize = 4;

pub const FRAME_FINAL: usize = 5;

// A dictionary slot's bytes of its name, four to a word, after its length, and its binding.
pub const SPELLING: usize = 1;

pub const BINDING_TAG: usize = 9;

pub const BINDING_PAYLOAD: usize = 10;

// An error's row, in the words that serve no name: its handler, and the slot of its name. Then the names of the latest error and of its command.
pub const HANDLER_WIDTH: usize = 36;

pub const HANDLER_TAG: usize = 11;

pub const HANDLER_PAYLOAD: usize = 23;

pub const HANDLER_NAME: usize = 35;

pub const LATEST_ERROR: usize = 623;

pub const LATEST_COMMAND: usize = 635;

// What a value is.
pub const TAG_NULL: u32 = 0;

pub const TAG_INTEGER: u32 = 1;

pub const TAG_BOOLEAN: u32 = 2;

pub const TAG_MARK: u32 = 3;

pub const TAG_OPERATOR: u32 = 4;

pub const TAG_LITERAL: u32 = 5;

pub const TAG_EXECUTABLE: u32 = 6;

// The binding of a name that has none.
pub const TAG_UNBOUND: u32 = 7;

pub const TAG_STRING: u32 = 8;

pub const TAG_ARRAY: u32 = 9;

pub const TAG_PROCEDURE: u32 = 10;

// What a place holds that names nothing.
pub const NULL: Value = Value {
    tag: TAG_NULL,
    pay: 0,
};

// How much of each lent buffer is in use: stack items, execution slots, names, log bytes; the heap's lists; and whether the run has been stopped.
#[derive(Clone, Copy)]
pub struct Machine {
    pub depth: usize,
    pub frames: usize,
    pub names: usize,
    pub written: usize,
    pub lists: Lists,
    pub stopped: bool,
}

// Operands of the logical operators: words, or truth values (0 or 1).
#[derive(Clone, Copy, PartialEq, Eq)]
pub enum Logical<T> {
    Words(T),
    Truths(T),
}

impl Machine {
    // Whether the stack has n items. Ruled out: the error where there are just n.
    pub fn needs(self, n: usize) -> Result<(), Error>
        ensures { MatchResult result (λ u. n ≤ self.depth) (λ e. (self.depth < n) × (e ≡ StackUnderflow)) }
    {
        if self.depth < n {
            return Err(Error::StackUnderflow);
        }
        Ok(())
    }

    // Whether n items more fit onto the stack. Ruled out: the error where they just fit.
    pub fn has_room(self, stack: &[u32], n: usize) -> Result<(), Error>
        requires { 2 * self.depth ≤ length stack.now }
        ensures { MatchResult result (λ u. 2 * (self.depth + n) ≤ length stack.now)
            (λ e. (length stack.now < 2 * (self.depth + n)) × (e ≡ StackOverflow)) }
    {
        if stack.len() / STACK_WIDTH - self.depth < n {
            return Err(Error::StackOverflow);
        }
        Ok(())
    }

    // Whether one execution slot more fits. Ruled out: the error where it just fits.
    pub fn has_slot(self, exec: &[u32]) -> Result<(), Error>
        ensures { MatchResult result (λ u. 8 * self.frames + 8 ≤ length exec.now)
            (λ e. (length exec.now < 8 * self.frames + 8) × (e ≡ ExecStackOverflow)) }
    {
        if exec.len() / EXEC_WIDTH <= self.frames {
            return Err(Error::ExecStackOverflow);
        }
        Ok(())
    }

    // Item i from the top, where it is an integer.
    pub fn int_at(self, stack: &[u32], i: usize) -> Result<u32, Error>
        requires { (i < self.depth) × (2 * self.depth ≤ length stack.now) }
        ensures { MatchResult result
            (λ w. (item_tag stack.now (self.depth - 1 - i) ≡ 1) × (w ≡ item_payload stack.now (self.depth - 1 - i)))
            (λ e. (item_tag stack.now (self.depth - 1 - i) ≢ 1) × (e ≡ TypeCheck)) }
    {
        let k = self.depth - 1 - i;
        if stack[STACK_WIDTH * k] != TAG_INTEGER {
            return Err(Error::TypeCheck);
        }
        Ok(stack[STACK_WIDTH * k + ITEM_PAYLOAD])
    }

    // An integer operand, or what is wrong with it.
    pub fn one_int(self, stack: &[u32]) -> Result<u32, Error>
        requires { 2 * self.depth ≤ length stack.now }
        ensures fetches_one { FetchesOne self stack.now result }
        ensures result_bound { one_low result ≤ self.depth }
    {
        let n = self.depth;
        if n < 1 {
            return Err(Error::StackUnderflow);
        }
        let i = STACK_WIDTH * (n - 1);
        if stack[i] != TAG_INTEGER {
            return Err(Error::TypeCheck);
        }
        Ok(stack[i + ITEM_PAYLOAD])
    }

    // Two integer operands, the upper one second, or what is wrong with them.
    pub fn two_ints(self, stack: &[u32]) -> Result<(u32, u32), Error>
        requires { 2 * self.depth ≤ length stack.now }
        ensures fetches_two { FetchesTwo self stack.now result }
        ensures result_bound { two_low result ≤ self.depth }
    {
        let n = self.depth;
        if n < 2 {
            return Err(Error::StackUnderflow);
        }
        let i = STACK_WIDTH * (n - 2);
        let j = STACK_WIDTH * (n - 1);
        if stack[i] != TAG_INTEGER {
            return Err(Error::TypeCheck);
        }
        if stack[j] != TAG_INTEGER {
            return Err(Error::TypeCheck);
        }
        Ok((stack[i + ITEM_PAYLOAD], stack[j + ITEM_PAYLOAD]))
    }

    // An operand of not, or what is wrong with it.
    pub fn one_logical(self, stack: &[u32]) -> Result<Logical<u32>, Error>
        requires { 2 * self.depth ≤ length stack.now }
        ensures fetches_one_logical { FetchesOneLogical self stack.now result }
        ensures result_bound { one_logical_low result ≤ self.depth }
    {
        let n = self.depth;
        if n < 1 {
            return Err(Error::StackUnderflow);
        }
        let i = STACK_WIDTH * (n - 1);
        let tag = stack[i];
        if tag == TAG_INTEGER {
            return Ok(Logical::Words(stack[i + ITEM_PAYLOAD]));
        }
        if tag == TAG_BOOLEAN {
            return Ok(Logical::Truths(stack[i + ITEM_PAYLOAD]));
        }
        Err(Error::TypeCheck)
    }

    // Two operands of one kind, the upper one second, or what is wrong with them.
    pub fn two_logical(self, stack: &[u32]) -> Result<Logical<(u32, u32)>, Error>
        requires { 2 * self.depth ≤ length stack.now }
        ensures fetches_two_logical { FetchesTwoLogical self stack.now result }
        ensures result_bound { two_logical_low result ≤ self.depth }
    {
        let n = self.depth;
        if n < 2 {
            return Err(Error::StackUnderflow);
        }
        let i = STACK_WIDTH * (n - 2);
        let j = STACK_WIDTH * (n - 1);
        let tag = stack[i];
        if stack[j] != tag {
            return Err(Error::TypeCheck);
        }
        if tag == TAG_INTEGER {
            return Ok(Logical::Words((stack[i + ITEM_PAYLOAD], stack[j + ITEM_PAYLOAD])));
        }
        if tag == TAG_BOOLEAN {
            return Ok(Logical::Truths((stack[i + ITEM_PAYLOAD], stack[j + ITEM_PAYLOAD])));
        }
        Err(Error::TypeCheck)
    }

    // Takes n operands that name no object away, and pushes a result.
    pub fn replace(mut self, stack: &mut [u32], n: usize, tag: u32, payload: u32) -> Machine
        requires { (2 * self.depth ≤ length stack.old) × (1 ≤ n) × (n ≤ self.depth) }
        ensures { Replaces n tag payload self result stack.old stack.new }
    {
        set_item(stack, self.depth - n, Value { tag, pay: payload });
        self.depth = self.depth - n + 1;
        self
    }

    // Pushes a value that needs no dictionary and no heap.
    pub fn push_scalar(mut self, stack: &mut [u32], tag: u32, payload: u32) -> Machine
        requires { 2 * self.depth + 2 ≤ length stack.old }
        ensures pushes { Pushes tag payload self result stack.old stack.new }
        ensures depth_value { result.depth ≡ self.depth + 1 }
    {
        let n = self.depth;
        set_item(stack, n, Value { tag, pay: payload });
        self.depth = n + 1;
        self
    }

    // The topmost item, where it is a name or an array, becomes executable or literal.
    pub fn retag(self, stack: &mut [u32], executable: bool) -> Machine
        requires { (1 ≤ self.depth) × (2 * self.depth ≤ length stack.old) }
        ensures moves_stack { MovesStack (retagged executable) self result stack.old stack.new }
        ensures depth_value { result.depth ≡ self.depth }
    {
        let i = STACK_WIDTH * (self.depth - 1);
        let tag = tag_as(stack[i], executable);
        stack[i] = tag;
        self
    }

    // The topmost item goes.
    pub fn drop(mut self, stack: &[u32], cells: &mut [u32]) -> Machine
        requires { (1 ≤ self.depth) × Somewhere self stack.now cells.old }
        ensures moves_heap { MovesHeap dropped self result stack.now stack.now cells.old cells.new }
        ensures depth_value { result.depth ≡ self.depth - 1 }
    {
        let k = self.depth - 1;
        let lists = self.lists;
        let old = item(stack, k);
        let left = recount(lists, cells, old, NULL);
        self.depth = k;
        self.lists = left;
        self
    }

    // A copy of item i from the top is pushed.
    pub fn push_copy(self, stack: &mut [u32], cells: &mut [u32], i: usize) -> Machine
        requires { (i < self.depth) × (2 * self.depth + 2 ≤ length stack.old) × Somewhere self stack.old cells.old }
        ensures moves_heap { MovesHeap (copied i) self result stack.old stack.new cells.old cells.new }
        ensures depth_value { result.depth ≡ self.depth + 1 }
    {
        let new = item(stack, self.depth - 1 - i);
        self.push_value(stack, cells, new)
    }

    // A copy of the value, which some place holds, is pushed.
    // Ruled out: a copy whose object is not counted; the topmost item stored over.
    #[inline(always)]
    pub fn push_value(mut self, stack: &mut [u32], cells: &mut [u32], value: Value) -> Machine
        requires { (2 * self.depth + 2 ≤ length stack.old) × HeldItems value.tag value.pay self stack.old cells.old }
        ensures pushes_value { PushesValue value.tag value.pay self result stack.old stack.new cells.old cells.new }
        ensures depth_value { (result.depth ≡ self.depth + 1) × (result.frames ≡ self.frames) }
    {
        let n = self.depth;
        let lists = self.lists;
        let left = recount(lists, cells, NULL, value);
        set_item(stack, n, value);
        self.depth = n + 1;
        self.lists = left;
        self
    }

    // Item i gives way to a copy of item j.
    pub fn copy_over(self, stack: &mut [u32], cells: &mut [u32], i: usize, j: usize) -> Machine
        requires { (i < self.depth) × (j < self.depth) × Somewhere self stack.old cells.old }
        ensures moves_heap { MovesHeap (copied_over i j) self result stack.old stack.new cells.old cells.new }
        ensures depth_value { result.depth ≡ self.depth }
    {
        let new = item(stack, self.depth - 1 - j);
        self.put_value(stack, cells, i, new)
    }

    // Item i gives way to a copy of the value, which some place holds.
    // Ruled out: the item let go before the value is counted; another item stored over.
    #[inline(always)]
    pub fn put_value(
        mut self,
        stack: &mut [u32],
        cells: &mut [u32],
        i: usize,
        value: Value,
    ) -> Machine
        requires { (i < self.depth) × HeldItems value.tag value.pay self stack.old cells.old }
        ensures puts_value { PutsValue i value.tag value.pay self result stack.old stack.new cells.old cells.new }
        ensures depth_value { result.depth ≡ self.depth }
    {
        let k = self.depth - 1 - i;
        let lists = self.lists;
        let old = item(stack, k);
        let left = recount(lists, cells, old, value);
        set_item(stack, k, value);
        self.lists = left;
        self
    }

    // Items i and j change places.
    pub fn swap(self, stack: &mut [u32], i: usize, j: usize) -> Machine
        requires { (i < self.depth) × (j < self.depth) × (2 * self.depth ≤ length stack.old) }
        ensures moves_stack { MovesStack (swapped i j) self result stack.old stack.new }
        ensures depth_value { result.depth ≡ self.depth }
    {
        let n = self.depth;
        let k = n - 1 - i;
        let o = n - 1 - j;
        let a = item(stack, k);
        let b = item(stack, o);
        set_item(stack, k, b);
        set_item(stack, o, a);
        self
    }

    // The topmost execution slot goes, and what it names is let go.
    // Ruled out: a procedure that is freed while a slot still runs it; a finished one that is kept.
    pub fn drop_frame(mut self, exec: &[u32], cells: &mut [u32]) -> Machine
        requires { (1 ≤ self.frames) × SlotsSomewhere self exec.now cells.old }
        ensures moves_frames { MovesFrames frame_dropped self result exec.now exec.now cells.old cells.new }
        ensures depth_value { (result.depth ≡ self.depth) × (result.frames ≡ self.frames - 1) }
    {
        let k = self.frames - 1;
        let old = frame_value(exec, k);
        let lists = self.lists;
        let left = recount(lists, cells, old, NULL);
        self.frames = k;
        self.lists = left;
        self
    }

    // The topmost execution slot, which names no object, goes.
    pub fn forget_frame(mut self) -> Machine
        requires { 1 ≤ self.frames }
        ensures forgets_frame { ForgetsFrame self result }
        ensures depth_value { (result.depth ≡ self.depth) × (result.frames ≡ self.frames - 1) }
    {
        self.frames = self.frames - 1;
        self
    }

    // The topmost execution slot goes, and its value is pushed.
    pub fn push_pending(mut self, stack: &mut [u32], exec: &[u32]) -> Machine
        requires { (1 ≤ self.frames) × (8 * self.frames ≤ length exec.now) × (2 * self.depth + 2 ≤ length stack.old) }
        ensures moves_items { MovesItems returned self result stack.old stack.new exec.now }
        ensures depth_value { (result.depth ≡ self.depth + 1) × (result.frames ≡ self.frames - 1) }
    {
        let n = self.depth;
        let k = self.frames - 1;
        let value = frame_value(exec, k);
        set_item(stack, n, value);
        self.depth = n + 1;
        self.frames = k;
        self
    }

    // The same state, made anew field by field: the compiler then keeps the fields of a loop's state apart.
    // Ruled out: two fields exchanged; a list of the heap that starts anew.
    pub fn fields(self) -> Machine
        ensures { result ≡ self }
    {
        let l = self.lists;
        let lists = Lists {
            free: l.free,
            listed: l.listed,
            edge: l.edge,
            work: l.work,
            dead: l.dead,
        };
        Machine {
            depth: self.depth,
            frames: self.frames,
            names: self.names,
            written: self.written,
            lists: lists,
            stopped: self.stopped,
        }
    }
}

// Item k from the bottom.
// Ruled out: an item counted from the top; the payload read for the tag.
#[inline(always)]
pub fn item(stack: &[u32], k: usize) -> Value
    requires { 2 * k + 2 ≤ length stack.now }
    ensures { (result.tag ≡ item_tag stack.now k) × (result.pay ≡ item_payload stack.now k) }
{
    Value {
        tag: stack[STACK_WIDTH * k],
        pay: stack[STACK_WIDTH * k + ITEM_PAYLOAD],
    }
}

// Item k from the bottom becomes the value; nothing is counted.
// Ruled out: the tag alone stored; a word of another item changed.
#[inline(always)]
pub fn set_item(stack: &mut [u32], k: usize, value: Value)
    requires { 2 * k + 2 ≤ length stack.old }
    ensures { stack.new ≡ set (set stack.old (2 * k) value.tag) (2 * k + 1) value.pay }
{
    stack[STACK_WIDTH * k] = value.tag;
    stack[STACK_WIDTH * k + ITEM_PAYLOAD] = value.pay;
}

// The value of execution slot k from the bottom.
// Ruled out: the slot's kind read for the tag; the numbers of a loop read for the payload.
#[inline(always)]
pub fn frame_value(exec: &[u32], k: usize) -> Value
    requires { 8 * k + 8 ≤ length exec.now }
    ensures { (result.tag ≡ frame_tag exec.now k) × (result.pay ≡ frame_payload exec.now k) }
{
    Value {
        tag: exec[EXEC_WIDTH * k + FRAME_TAG],
        pay: exec[EXEC_WIDTH * k + FRAME_PAYLOAD],
    }
}

// The value of execution slot k from the bottom becomes another; nothing is counted.
// Ruled out: the slot's kind stored over; a word of another slot changed.
#[inline(always)]
pub fn set_frame_value(exec: &mut [u32], k: usize, value: Value)
    requires { 8 * k + 8 ≤ length exec.old }
    ensures { exec.new ≡ set (set exec.old (8 * k + 1) value.tag) (8 * k + 2) value.pay }
{
    exec[EXEC_WIDTH * k + FRAME_TAG] = value.tag;
    exec[EXEC_WIDTH * k + FRAME_PAYLOAD] = value.pay;
}

// A place that held the old value holds the new one: the new object is counted before the old one is let go, so that an object that is both stays.
pub fn recount(s: Lists, cells: &mut [u32], old: Value, new: Value) -> Lists
    requires { Placed s cells.old old.tag old.pay new.tag new.pay }
    ensures { Recounts s cells.old old.tag old.pay new.tag new.pay result cells.new }
{
    heap::increment(cells, new);
    if FIRST_OBJECT <= old.tag {
        return heap::release(s, cells, old.pay);
    }
    s
}

// The tag of a value, made executable or literal.
fn tag_as(tag: u32, executable: bool) -> u32
    ensures { result ≡ tag_as executable tag }
{
    if executable {
        if tag == TAG_LITERAL {
            return TAG_EXECUTABLE;
        }
        if tag == TAG_ARRAY {
            return TAG_PROCEDURE;
        }
        return tag;
    }
    if tag == TAG_EXECUTABLE {
        return TAG_LITERAL;
    }
    if tag == TAG_PROCEDURE {
        return TAG_ARRAY;
    }
    tag
}
