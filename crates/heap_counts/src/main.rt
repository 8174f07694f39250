// Makes, shares and lets go of objects, as the steps on standard input say, and says how many cells are free where a step has a name after a colon.
// What it must say is worked out here.
// The heap has 32768 cells. An array of n elements takes 1 + n of them, a string of at most n bytes 1 + n / 8, rounded up.
// An object stays while a slot, or an element of an object that stays, names it. So a circle of objects stays for ever. Each group of lines starts
// with a fresh heap and empty slots.
//
//   step             what it does; of its word the first letter counts
//   fresh            a heap with no object, and empty slots
//   array S N        the empty slot S names a new array of N elements, if there are cells enough
//   string S N       the same, a string of at most N bytes
//   name S T         the empty slot T names what slot S names
//   let go S         slot S names nothing
//   element S I T    element I of slot S's array names what slot T names, or is null
//   copy S I J       element I of slot S's array becomes its element J
//   grow N           N arrays of 1, each of the one before, the first of what slot 0 names, and slot 0 the last
//
//   line             what has been done                                                         free before, cells          free
//   fresh            nothing                                                                                               32768
//   array            slot 0: array of 3                                                         32768 - (1 + 3)            32764
//   empty array      slot 1: array of 0                                                         32764 - 1                  32763
//   string of 8      slot 2                                                                     32763 - (1 + 1)            32761
//   string of 9      slot 3                                                                     32761 - (1 + 2)            32758
//   array gone       slot 0 let go                                                              32758 + 4                  32762
//   all gone         slots 1, 2, 3 let go                                                       32762 + 1 + 2 + 3          32768
//
//   three slots      slots 0, 1, 2: one array of 4                                              32768 - (1 + 4)            32763
//   one slot         slots 0, 1 let go                                                          slot 2 names it            32763
//   no slot          slot 2 let go                                                              32763 + 5                  32768
//   pair             slot 0: array of 2; both elements and slot 1: string of 9                  32768 - 3 - 3              32762
//   two elements     slot 1 let go                                                              the pair names it          32762
//   one element      element 0 null                                                             element 1 names it         32762
//   no element       element 1 null                                                             32762 + 3                  32765
//   pair gone        slot 0 let go                                                              32765 + 3                  32768
//
//   diamond          array of 2 of two arrays of 1, both of one array of 0; slot 0 alone        32768 - 3 - 2 - 2 - 1      32760
//   half             element 0 null: one array of 1 goes, the other names the array of 0        32760 + 2                  32762
//   diamond gone     slot 0 let go                                                              32762 + 3 + 2 + 1          32768
//
//   itself           slot 0: array of 1, of itself                                              32768 - 2                  32766
//   for ever         slot 0 let go                                                              it names itself            32766
//   circle           slots 0, 1: two arrays of 1, each of the other                             32766 - 2 - 2              32762
//   for ever         slots 0, 1 let go                                                          each names the other       32762
//   circle           slots 0, 1: two more                                                       32762 - 2 - 2              32758
//   broken           slot 1 let go, the element of slot 0's array null: the other goes          32758 + 2                  32760
//   circle gone      slot 0 let go                                                              32760 + 2                  32762
//
//   one place        slot 0: array of 2, whose element 0 alone names an array of 4              32768 - 3 - 5              32760
//   onto itself      element 0 := element 0                                                     never without a name       32760
//   two places       element 1 := element 0                                                     the same array             32760
//   one place        element 0 null                                                             element 1 names it         32760
//   overwritten      element 1 := element 0                                                     32760 + 5                  32765
//   gone             slot 0 let go                                                              32765 + 3                  32768
//
//   chain            16384 arrays of 1, each of the one before; slot 0 the last                 32768 - 16384 * 2              0
//   chain gone       slot 0 let go                                                              0 + 16384 * 2              32768
//   chain            the same, from freed cells, and slot 2 the first                           32768 - 16384 * 2              0
//   chain gone       slot 0 let go: all but the first                                           0 + 16383 * 2              32766
//   end gone         slot 2 let go                                                              32766 + 2                  32768
//
//   long array       slot 0: array of 32767                                                     32768 - (1 + 32767)            0
//   refused          slot 1: array of 0, for which there is no cell                                                            0
//   long gone        element 32766 := itself, element 32766 null, slot 0 let go                 0 + 32768                  32768
//   long array       slot 0: array of 32767                                                     32768 - (1 + 32767)            0
//   for ever         element 32766 := itself, element 32765 null, slot 0 let go                 it names itself                0
//
//   seven left       slot 0: array of 32760                                                     32768 - (1 + 32760)            7
//   refused          slot 1: array of 7, of 8 cells                                                                            7
//   refused          slot 1: string of 49, of 1 + 7 cells                                                                      7
//   taken            slot 1: string of 48                                                       7 - (1 + 6)                    0
//   seven back       slot 1 let go                                                              0 + 7                          7
//   taken            slot 1: array of 6                                                         7 - (1 + 6)                    0
//   all gone         slots 0, 1 let go                                                          0 + 32761 + 7              32768
#![tactic(auto)]

ghost use Rattle.std.specs.Prelude.{◌≡◌, ◌+◌, ◌-◌, ◌≤◌, length};
ghost use Rattle.heap.specs.Shape.{cells};
ghost use Rattle.heap_counts.specs.Slots.{Slots, Found};

use heap::{FIRST_OBJECT, Lists, Value};
use std::io;
use std::io::Write;
use steps::Step;

mod steps;

// Root places, each 0 or 1 more than the header of the object that it names.
const SLOTS: usize = 4;

// Four a cell.
const WORDS: usize = 131072;

// More bytes than there are of steps.
const SCRIPT: usize = 4096;

fn say_number<W: Write>(out: &mut W, n: u32) -> io::Result<()> {
    let mut digits = [0u8; 10];
    let end = text::write_decimal(&mut digits, 0, n);
    out.write_all(&digits[..end])
}

// The cells on the free list, and those never used.
fn free_cells(s: Lists, slots: &[u32], m: &[u32]) -> u32
    requires { Slots s slots.now m.now }
    ensures { result ≡ s.listed + (cells m.now - s.edge) }
{
    s.listed + ((m.len() / 4) as u32 - s.edge)
}

// `name` has a colon and a blank in front, where there is one.
fn show<W: Write>(out: &mut W, name: &[u8], s: Lists, slots: &[u32], m: &[u32]) -> io::Result<()>
    requires { Slots s slots.now m.now }
{
    if name.len() < 2 {
        return Ok(());
    }
    out.write_all(&name[2..])?;
    out.write_all(b" ")?;
    say_number(out, free_cells(s, slots, m))?;
    out.write_all(b"\n")
}

// A heap with no object, and slots that name nothing.
fn clear(slots: &mut [u32], m: &[u32]) -> Lists
    requires { (cells m.now ≤ 32768) × (cells m.now + length slots.old ≤ 65536) }
    ensures { Slots result slots.new m.now }
{
    slots.fill(0);
    heap::fresh()
}

// All objects are given up, the circles too.
fn restart(s: Lists, slots: &mut [u32], m: &[u32]) -> Lists
    requires { Slots s slots.old m.now }
    ensures { Slots result slots.new m.now }
{
    clear(slots, m)
}

// An empty slot names a new object, if there are cells enough.
fn make(s: Lists, slots: &mut [u32], m: &mut [u32], slot: usize, kind: u32, n: u32) -> Lists
    requires { Slots s slots.old m.old }
    ensures { Slots result slots.new m.new }
{
    if slots.len() <= slot {
        return s;
    }
    if slots[slot] != 0 {
        return s;
    }
    if free_cells(s, slots, m) <= n {
        return s;
    }
    let t = heap::allocate(s, m, kind, n);
    slots[slot] = t.cell + 1;
    t.lists
}

// The empty slot b names what slot a names.
fn share(s: Lists, slots: &mut [u32], m: &mut [u32], a: usize, b: usize) -> Lists
    requires { Slots s slots.old m.old }
    ensures { Slots result slots.new m.new }
{
    if slots.len() <= a {
        return s;
    }
    if slots.len() <= b {
        return s;
    }
    let named = slots[a];
    if named == 0 {
        return s;
    }
    if slots[b] != 0 {
        return s;
    }
    heap::increment(
        m,
        Value {
            tag: FIRST_OBJECT,
            pay: named - 1,
        },
    );
    slots[b] = named;
    s
}

// The slot names nothing.
fn let_go(s: Lists, slots: &mut [u32], m: &mut [u32], slot: usize) -> Lists
    requires { Slots s slots.old m.old }
    ensures { Slots result slots.new m.new }
{
    if slots.len() <= slot {
        return s;
    }
    let named = slots[slot];
    if named == 0 {
        return s;
    }
    slots[slot] = 0;
    heap::release(s, m, named - 1)
}

// The cell of element i of the array that the slot names, if there is one.
fn find_element(s: Lists, slots: &[u32], m: &[u32], slot: usize, i: u32) -> Option<u32>
    requires { Slots s slots.now m.now }
    ensures { Found s slots.now m.now result }
{
    if slots.len() <= slot {
        return None;
    }
    let named = slots[slot];
    if named == 0 {
        return None;
    }
    let h = named - 1;
    if heap::kind(m, h) != 0 {
        return None;
    }
    if heap::size(m, h) <= i {
        return None;
    }
    Some(heap::seek(m, h, i))
}

// Element i of slot a's array names what slot b names; it is null where that is nothing.
fn set(s: Lists, slots: &[u32], m: &mut [u32], a: usize, i: u32, b: usize) -> Lists
    requires { Slots s slots.now m.old }
    ensures { Slots result slots.now m.new }
{
    let Some(c) = find_element(s, slots, m, a, i) else {
        return s;
    };
    if slots.len() <= b {
        return s;
    }
    let named = slots[b];
    if named == 0 {
        return heap::assign(s, m, c, Value { tag: 0, pay: 0 });
    }
    heap::assign(
        s,
        m,
        c,
        Value {
            tag: FIRST_OBJECT,
            pay: named - 1,
        },
    )
}

// Element i of slot a's array becomes its element j.
fn copy(s: Lists, slots: &[u32], m: &mut [u32], a: usize, i: u32, j: u32) -> Lists
    requires { Slots s slots.now m.old }
    ensures { Slots result slots.now m.new }
{
    let Some(c) = find_element(s, slots, m, a, i) else {
        return s;
    };
    let Some(d) = find_element(s, slots, m, a, j) else {
        return s;
    };
    let new = heap::value_of(m, d);
    heap::assign(s, m, c, new)
}

// One array of 1 more in front of the chain of slot 0. Slot 1 is empty before and after.
fn lengthen(s: Lists, slots: &mut [u32; SLOTS], m: &mut [u32; WORDS]) -> Lists
    requires { Slots s slots.old m.old }
    ensures { Slots result slots.new m.new }
{
    let mut r = make(s, slots, m, 1, 0, 1);
    r = set(r, slots, m, 1, 0, 0);
    r = let_go(r, slots, m, 0);
    r = share(r, slots, m, 1, 0);
    let_go(r, slots, m, 1)
}

fn chain(s: Lists, slots: &mut [u32; SLOTS], m: &mut [u32; WORDS], n: u32) -> Lists
    requires { Slots s slots.old m.old }
    ensures { Slots result slots.new m.new }
{
    let mut r = s;
    for _ in 0..n {
        r = lengthen(r, slots, m);
    }
    r
}

// What a step says is done. A word that is none of these does nothing.
fn act(s: Lists, slots: &mut [u32; SLOTS], m: &mut [u32; WORDS], step: Step) -> Lists
    requires { Slots s slots.old m.old }
    ensures { Slots result slots.new m.new }
{
    let what = step.what;
    let a = step.a as usize;
    let b = step.b as usize;
    let c = step.c as usize;
    let i = step.b as u32;
    let n = step.c as u32;
    match what {
        b'f' => restart(s, slots, m),
        b'a' => make(s, slots, m, b, 0, n),
        // A cell has eight bytes of a string.
        b's' => make(s, slots, m, b, 1 + n, (n + 7) / 8),
        b'n' => share(s, slots, m, b, c),
        b'l' => let_go(s, slots, m, c),
        b'e' => set(s, slots, m, a, i, c),
        b'c' => copy(s, slots, m, a, i, n),
        b'g' => chain(s, slots, m, n),
        _ => s,
    }
}

// What is before the colon is done.
fn run_line(s: Lists, slots: &mut [u32; SLOTS], m: &mut [u32; WORDS], line: &[u8]) -> Lists
    requires { Slots s slots.old m.old }
    ensures { Slots result slots.new m.new }
{
    let colon = steps::find(line, b':');
    act(s, slots, m, steps::read(&line[..colon]))
}

// What is after it is said, with the free cells.
fn show_line<W: Write>(
    out: &mut W,
    line: &[u8],
    s: Lists,
    slots: &[u32],
    m: &[u32],
) -> io::Result<()>
    requires { Slots s slots.now m.now }
{
    let colon = steps::find(line, b':');
    show(out, &line[colon..], s, slots, m)
}

fn run_lines<W: Write>(
    out: &mut W,
    script: &[u8],
    slots: &mut [u32; SLOTS],
    m: &mut [u32; WORDS],
) -> io::Result<()> {
    let mut s = clear(slots, m);
    // a line at a time: a `for` over `split` gets no proof in a generic function
    let mut rest = script;
    loop {
        let end = steps::find(rest, b'\n');
        s = run_line(s, slots, m, &rest[..end]);
        show_line(out, &rest[..end], s, slots, m)?;
        let Some((_, after)) = rest[end..].split_first() else {
            return Ok(());
        };
        rest = after;
    }
}

fn main(rt: HostRuntime) -> io::Result<()> {
    let mut script = [0u8; SCRIPT];
    let mut slots = [0u32; SLOTS];
    let mut m = [0u32; WORDS];
    let n = input::read_full(&mut rt.stdin(), &mut script)?;
    run_lines(&mut rt.stdout(), &script[..n], &mut slots, &mut m)
}
