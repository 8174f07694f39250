// Arrays and strings in cells of four words, over a lent slice, each object with the number of places that name it.
// A header is (kind, number of body cells, count, first body cell and a mark), and a body cell (tag, payload, next cell, skip word).
// Of a header's word 1 the lower 16 bits, READ_ONLY and SCATTERED and of its word 3 the lower 15 bits and the topmost are meant; the others may be anything.
// The promise: where every count is exact before, it is exact after, and what is freed is what only dead objects name.
#![tactic(auto)]

ghost use Rattle.std.specs.Prelude.{◌≡◌, ℕ, suc, ◌+◌, ◌-◌, ◌*◌, ◌%◌, ◌<◌, ◌≤◌, length};
ghost use Rattle.heap.specs.Word.{word, Put};
ghost use Rattle.heap.specs.Chain.{live, out, on};
ghost use Rattle.heap.specs.Shape.{Ghost, Shape, Skip, Empty, Heap, Full, cells, header_mark, first_unit, size_unit};
ghost use Rattle.heap.specs.Assign.{Alives, Assigned, Target, Risen};
ghost use Rattle.heap.specs.Grow.{Fine, FineLive, Took, Grew, Made, Filled, Longer};
ghost use Rattle.heap.specs.Gone.{Sound, Goes, Shed, Freed};
ghost use Rattle.heap.specs.Reading.{is_sealed};
ghost use Rattle.heap.specs.Seal.{Seals};

// Tags below it are plain values; from it on the payload is a header cell.
pub const FIRST_OBJECT: u32 = 8;

// A skip word is a cell and RANK_UNIT times its rank, the number of cells after it in its body.
const RANK_UNIT: u32 = 65536;

// A header's word 3 has it, and no body cell's and no free cell's.
pub const HEADER_MARK: u32 = 0x8000_0000;

// A header's word 3 modulo it is the first cell of its body.
pub const FIRST_UNIT: u32 = 32768;

// A header's word 1 modulo it is the number of cells of its body.
const SIZE_UNIT: u32 = 65536;

// A header's word 1 has it where its object is read only.
const READ_ONLY: u32 = 65536;

// A header's word 1 has it where the cells of its body do not stand side by side, the first one last.
const SCATTERED: u32 = 131072;

// The lists of cells: the free cells (first, how many), the cells from `edge` on that were never used, and the dead
// headers whose cells are still to be freed (first, how many).
#[derive(Clone, Copy)]
pub struct Lists {
    pub free: u32,
    pub listed: u32,
    pub edge: u32,
    pub work: u32,
    pub dead: u32,
}

// A cell, and the lists without it.
#[derive(Clone, Copy)]
pub struct Taken {
    pub cell: u32,
    pub lists: Lists,
}

// A value in two words: what it is, and what that tells of the payload. From FIRST_OBJECT on the tag makes the payload a header cell.
#[derive(Clone, Copy, PartialEq, Eq)]
pub struct Value {
    pub tag: u32,
    pub pay: u32,
}

// The lists of a heap with no object, whatever the words hold.
// Ruled out: a first cell passed over; words that would have to be cleared.
pub fn fresh() -> Lists
    ensures { Empty result }
{
    Lists {
        free: 0,
        listed: 0,
        edge: 0,
        work: 0,
        dead: 0,
    }
}

// Word w of cell c.
pub fn get(m: &[u32], c: u32, w: usize) -> u32
    requires { (w < 4) × (c * 4 + 4 ≤ length m.now) }
    ensures { result ≡ word m.now c w }
{
    m[(c as usize) * 4 + w]
}

// Word w of cell c becomes v.
pub fn put(m: &mut [u32], c: u32, w: usize, v: u32)
    requires { (w < 4) × (c * 4 + 4 ≤ length m.old) }
    ensures { Put m.old c w v m.new }
{
    m[(c as usize) * 4 + w] = v;
}

// The value that the body cell c holds.
// Ruled out: the words of another cell; the payload read for the tag.
pub fn value_of(m: &[u32], c: u32) -> Value
    requires { c * 4 + 4 ≤ length m.now }
    ensures { (result.tag ≡ word m.now c 0) × (result.pay ≡ word m.now c 1) }
{
    Value {
        tag: get(m, c, 0),
        pay: get(m, c, 1),
    }
}

// The kind of the header h: 0 of an array, and 1 and the maximum of a string.
pub fn kind(m: &[u32], h: u32) -> u32
    requires { h * 4 + 4 ≤ length m.now }
    ensures { result ≡ word m.now h 0 }
{
    get(m, h, 0)
}

// The cell after the body cell c.
pub fn next(m: &[u32], c: u32) -> u32
    requires { c * 4 + 4 ≤ length m.now }
    ensures { result ≡ word m.now c 2 }
{
    get(m, c, 2)
}

// The number of body cells of the header h.
pub fn size(m: &[u32], h: u32) -> u32
    requires { h * 4 + 4 ≤ length m.now }
    ensures { result ≡ word m.now h 1 % size_unit }
{
    get(m, h, 1) % SIZE_UNIT
}

// Whether the object of the header h is read only.
// Ruled out: the mark of another object; the number of its cells read for the mark.
pub fn is_sealed(m: &[u32], h: u32) -> bool
    requires { h * 4 + 4 ≤ length m.now }
    ensures { result ≡ is_sealed m.now h }
{
    get(m, h, 1) / READ_ONLY % 2 == 1
}

// The object of the header h is read only.
// Ruled out: a mark that a second one takes away; the number of its cells changed.
pub fn seal(m: &mut [u32], h: u32)
    requires { h * 4 + 4 ≤ length m.old }
    ensures { Seals m.old h m.new }
{
    let w = get(m, h, 1);
    if w / READ_ONLY % 2 == 0 {
        put(m, h, 1, w + READ_ONLY);
    }
}

// Cell i of the body of the header h: at once where the cells stand side by side.
// Ruled out: a link that is not followed; an element counted from the wrong end.
pub fn seek(m: &[u32], h: u32, i: u32) -> u32
    requires { (g : Ghost) × (e : ℕ) × Shape g e m.now × (g.own h ≡ live) × (i < g.size (h + 2)) }
    ensures { (g : Ghost) (e : ℕ) → Shape g e m.now → g.own h ≡ live → (k : ℕ) → g.size (h + 2) ≡ i + suc k → g.own result ≡ on (h + 2) k }
{
    if get(m, h, 1) / SCATTERED % 2 == 0 {
        return get(m, h, 3) % FIRST_UNIT - i;
    }
    walk(m, h, i)
}

// The same, wherever the cells stand: by skip words, while they do not lead past it.
fn walk(m: &[u32], h: u32, i: u32) -> u32
    requires { (g : Ghost) × (e : ℕ) × Shape g e m.now × (g.own h ≡ live) × (i < g.size (h + 2)) }
    ensures { (g : Ghost) (e : ℕ) → Shape g e m.now → g.own h ≡ live → (k : ℕ) → g.size (h + 2) ≡ i + suc k → g.own result ≡ on (h + 2) k }
{
    let n = size(m, h);
    let rank = n - 1 - i;
    let mut c = get(m, h, 3) % FIRST_UNIT;
    let mut j = n - 1;
    while rank < j {
        let w = get(m, c, 3);
        if rank <= w / RANK_UNIT {
            c = w % RANK_UNIT;
            j = w / RANK_UNIT;
        } else {
            c = get(m, c, 2);
            j -= 1;
        }
    }
    c
}

// An object of n body cells, each a null, in hand: one place names it, the caller's.
// Ruled out: a cell lost on the way; a count that is not 1.
pub fn allocate(s: Lists, m: &mut [u32], kind: u32, n: u32) -> Taken
    requires full { (p : ℕ) × (g : Ghost) × Full g p 0 s m.old }
    requires room { n + 1 + s.edge ≤ cells m.old + s.listed }
    ensures { (result.lists.listed + s.edge + n + 1 ≡ s.listed + result.lists.edge) × Made kind n result.cell s m.old result.lists m.new × (result.lists.dead ≡ s.dead) }
{
    let t = new_header(s, m, kind);
    let h = t.cell;
    let mut r = t.lists;
    for i in 0..n {
        r = prepend(r, m, h);
    }
    Taken { cell: h, lists: r }
}

// If the value is an object, one place more names it.
// Ruled out: a payload taken for a header where the tag is a plain value's; another object counted.
pub fn increment(m: &mut [u32], value: Value)
    requires { (p : ℕ) × (g : Ghost) × (s : Lists) × Full g p 0 s m.old × Alives g value.tag value.pay }
    ensures { Risen value.tag value.pay m.old m.new × ((x u : ℕ) → u < 4 → (u ≡ 2 → ⊥) → word m.new x u ≡ word m.old x u) }
{
    let Value { tag, pay } = value;
    if FIRST_OBJECT <= tag {
        let n = get(m, pay, 2);
        put(m, pay, 2, n + 1);
    }
}

// The cell c of a live array holds the value, and what it held before is let go.
// Ruled out: the old value let go and the new one not counted; the new one let go in place of the old.
pub fn assign(s: Lists, m: &mut [u32], c: u32, new: Value) -> Lists
    requires { Target c new.tag new.pay s m.old × (s.dead ≡ 0) }
    ensures { (result.dead ≡ 0) × Assigned c new.tag new.pay s m.old result m.new }
{
    let Value { tag: old, pay: was } = value_of(m, c);
    let Value { tag, pay } = new;
    increment(m, new);
    put(m, c, 0, tag);
    put(m, c, 1, pay);
    if FIRST_OBJECT <= old {
        release(s, m, was)
    } else {
        s
    }
}

// What names o lets go of it; all that only dead objects name is freed, and nothing else.
// Ruled out: an object freed that a place still names; an object kept that nothing names.
pub fn release(s: Lists, m: &mut [u32], o: u32) -> Lists
    requires { Sound (suc o) s m.old }
    ensures { (result.dead ≡ 0) × Goes (suc o) s m.old result m.new }
{
    let mut t = decrement(s, m, o);
    while 0 < t.dead {
        t = reclaim(t, m);
    }
    t
}

// A free cell, off its list.
fn take(s: Lists, m: &[u32]) -> Taken
    requires { Fine s m.now × (s.edge < cells m.now + s.listed) }
    ensures { (result.lists.listed + s.edge + 1 ≡ s.listed + result.lists.edge) × Took s m.now result.cell result.lists × (result.lists.dead ≡ s.dead) }
{
    if s.listed == 0 {
        Taken {
            cell: s.edge,
            lists: Lists {
                listed: 0,
                edge: s.edge + 1,
                ..s
            },
        }
    } else {
        let c = s.free;
        let next = get(m, c, 2);
        let lists = Lists {
            free: next,
            listed: s.listed - 1,
            ..s
        };
        Taken { cell: c, lists }
    }
}

// A header with no body, in hand.
fn new_header(s: Lists, m: &mut [u32], kind: u32) -> Taken
    requires { Fine s m.old × (s.edge < cells m.old + s.listed) }
    ensures { (result.lists.listed + s.edge + 1 ≡ s.listed + result.lists.edge) × Made kind 0 result.cell s m.old result.lists m.new × (result.lists.dead ≡ s.dead) }
{
    let t = take(s, m);
    let h = t.cell;
    put(m, h, 0, kind);
    put(m, h, 1, 0);
    put(m, h, 2, 1);
    put(m, h, 3, HEADER_MARK);
    t
}

// The body of the live header h gets one cell more, in front.
fn prepend(s: Lists, m: &mut [u32], h: u32) -> Lists
    requires { FineLive h s m.old × (s.edge < cells m.old + s.listed) }
    ensures { (result.listed + s.edge + 1 ≡ s.listed + result.edge) × Grew 1 h s m.old result m.new × (result.dead ≡ s.dead) }
{
    let t = take(s, m);
    let c = t.cell;
    let first = get(m, h, 3) % FIRST_UNIT;
    let w = get(m, h, 1);
    let skip = skip_word(m, first, w % SIZE_UNIT);
    init_cell(m, c, first, skip);
    put(m, h, 3, HEADER_MARK + c);
    put(m, h, 1, longer(w, first, c));
    t.lists
}

// A header's word 1, which was w, once the cell c stands before `first`: one cell more, and SCATTERED unless the two stand side by side.
fn longer(w: u32, first: u32, c: u32) -> u32
    requires { (w % size_unit < 65535) × (first < first_unit) }
    ensures { Longer w first c result }
{
    if c == first + 1 {
        return w + 1;
    }
    if w % SIZE_UNIT == 0 {
        return w + 1;
    }
    w % SCATTERED + SCATTERED + 1
}

// The skip word of a cell that is to stand before `first`, the first of n cells. It leads to `first`, or, where the two
// skips from there are of one length, past both (Myers, An applicative random-access stack). With no cell behind, it leads nowhere.
fn skip_word(m: &[u32], first: u32, n: u32) -> u32
    requires { (g : Ghost) × (e : ℕ) × (s : ℕ) × Shape g e m.now × (2 ≤ s) × (g.size s ≡ n) × (g.top s ≡ first) }
    ensures { ((g : Ghost) (e s : ℕ) → Shape g e m.now → 2 ≤ s → g.size s ≡ n → g.top s ≡ first → (k : ℕ) → n ≡ suc k → Skip g.own s k result) × (n ≡ 0 → result ≡ first) }
{
    if n < 2 {
        return first;
    }
    let w = get(m, first, 3);
    let r = w / RANK_UNIT;
    let v = get(m, w % RANK_UNIT, 3);
    if n - 1 + v / RANK_UNIT == r + r {
        return v;
    }
    first + RANK_UNIT * (n - 1)
}

// A body cell of a null, with its next cell and its skip word.
fn init_cell(m: &mut [u32], c: u32, next: u32, skip: u32)
    requires { c * 4 + 4 ≤ length m.old }
    ensures { Filled m.old c next skip m.new }
{
    put(m, c, 0, 0);
    put(m, c, 1, 0);
    put(m, c, 2, next);
    put(m, c, 3, skip);
}

// One place less names o: its count goes down, and at 0 it goes on the list of dead headers.
fn decrement(s: Lists, m: &mut [u32], o: u32) -> Lists
    requires { Sound (suc o) s m.old }
    ensures { (result.listed ≡ s.listed) × Goes (suc o) s m.old result m.new }
{
    let count = get(m, o, 2);
    if count == 1 {
        put(m, o, 2, s.work);
        Lists {
            work: o,
            dead: s.dead + 1,
            ..s
        }
    } else {
        put(m, o, 2, count - 1);
        s
    }
}

// One cell of a dead object goes on the free list.
fn reclaim(s: Lists, m: &mut [u32]) -> Lists
    requires { Sound 0 s m.old × (0 < s.dead) }
    ensures { (result.listed ≡ s.listed + 1) × Goes 0 s m.old result m.new }
{
    let d = s.work;
    let n = size(m, d);
    if n == 0 {
        free_header(s, m)
    } else {
        free_body_cell(s, m, n)
    }
}

// The first dead header, whose body is empty, goes on the free list.
fn free_header(s: Lists, m: &mut [u32]) -> Lists
    requires { Sound 0 s m.old × (0 < s.dead) × (word m.old s.work 1 % size_unit ≡ 0) }
    ensures { (result.listed ≡ s.listed + 1) × Goes 0 s m.old result m.new }
{
    let d = s.work;
    let next = get(m, d, 2);
    let t = Lists {
        work: next,
        dead: s.dead - 1,
        ..s
    };
    put(m, d, 3, 0);
    free_cell(t, m, d)
}

// The first cell of the first dead header's body, which has n cells, goes on the free list, and what it names is counted down.
fn free_body_cell(s: Lists, m: &mut [u32], n: u32) -> Lists
    requires { Sound 0 s m.old × (0 < s.dead) × (word m.old s.work 1 % size_unit ≡ n) × (0 < n) }
    ensures { (result.listed ≡ s.listed + 1) × Goes 0 s m.old result m.new }
{
    let d = s.work;
    let b = pop_body(m, d, n);
    let kind = get(m, d, 0);
    let tag = get(m, b, 0);
    let o = get(m, b, 1);
    let t = free_cell(s, m, b);
    if kind == 0 {
        if FIRST_OBJECT <= tag {
            return decrement(t, m, o);
        }
    }
    t
}

// The first cell comes off the body of the header d, which has n cells. The last cell has no next, and its word may be any.
fn pop_body(m: &mut [u32], d: u32, n: u32) -> u32
    requires { (0 < n) × (d * 4 + 4 ≤ length m.old) × ((word m.old d 3 % first_unit) * 4 + 4 ≤ length m.old) }
    ensures { Shed m.old d n result m.new }
{
    let b = get(m, d, 3) % FIRST_UNIT;
    let next = get(m, b, 2);
    put(m, d, 1, n - 1);
    put(m, d, 3, HEADER_MARK + next % FIRST_UNIT);
    b
}

// A cell that is on no list and has no mark goes on the free list.
fn free_cell(s: Lists, m: &mut [u32], c: u32) -> Lists
    requires { (g : Ghost) × Heap g s m.old × (g.own c ≡ out) × (word m.old c 3 < header_mark) }
    ensures { Freed c s m.old result m.new }
{
    put(m, c, 2, s.free);
    Lists {
        free: c,
        listed: s.listed + 1,
        ..s
    }
}
