// The lent book of records, one for each socket: whether it is sound, and what an entry does to it (02, W3).
#![tactic(auto)]

ghost use Rattle.std.specs.Prelude.{◌≡◌, ◌==◌, ◌&&◌, cond, ◌+◌, ◌≤◌, ◌<◌, length, get_or, set, ltb, eqb, is_some, unwrap_or, position};
ghost use Rattle.std.specs.Option.{ForSome};
ghost use Rattle.book.specs.Books.{blank, room_of, in_range, is_sound, place_of};
ghost use Rattle.book.specs.Fates.{fate_of, fate_in, Enters};

// The records of a book, the bytes of a place, and the greatest number and time.
pub const RECORDS_MOST: usize = 64;

pub const PLACE_MOST: u32 = 31;

pub const GREATEST: u32 = 2147483647;

// One socket's record. Of the place the first `length` bytes count.
#[repr(C)]
#[derive(Clone, Copy, PartialEq, Eq, Debug)]
pub struct Record {
    pub number: u32,
    pub place: [u8; 31],
    pub length: u32,
    pub time: u32,
}

// What becomes of an entry.
#[derive(Clone, Copy, PartialEq, Eq, Debug)]
pub enum Fate {
    Replaces,
    Adds,
    Late,
    Full,
}

// What became of an entry, its place, and the count after it.
#[derive(Clone, Copy, PartialEq, Eq, Debug)]
pub struct Entered {
    pub fate: Fate,
    pub at: usize,
    pub count: usize,
}

// How many of the lent records are used.
// Ruled out: 65 of 65; 64 of 3.
#[tactic(auto, unfolding(crate::specs::Books::room_of))]
pub fn room_of(lent: usize) -> usize
    ensures { result ≡ room_of lent }
{
    lent.min(RECORDS_MOST)
}

// The place of the first of these records with this number, if one has it.
// Ruled out: the place of a later record with the number.
pub fn find(book: &[Record], number: u32) -> Option<usize>
    ensures { result ≡ position (λ r. r.number == number) book.now }
{
    book.iter().position(|r| r.number == number)
}

// The time of one of the first `count` records; 0 past them.
// Ruled out: the time of a neighbour; a read past the records that count.
pub fn time_at(book: &[Record], count: usize, at: usize) -> u32
    requires { count ≤ length book.now }
    ensures { result ≡ cond (ltb at count) (get_or book.now at blank).time 0 }
{
    if at < count {
        return book[at].time;
    }
    0
}

// A record takes the place of another.
// Ruled out: a second record changed; a byte of the place left as it was.
pub fn replace(book: &mut [Record], at: usize, entry: Record)
    requires { at < length book.old }
    ensures { book.new ≡ set book.old at entry }
{
    book[at] = entry;
}

// A record goes after the last; the new count.
// Ruled out: the last record overwritten; the count as it was.
pub fn append(book: &mut [Record], count: usize, entry: Record) -> usize
    requires { count < length book.old }
    ensures { (result ≡ count + 1) × (book.new ≡ set book.old count entry) }
{
    book[count] = entry;
    count + 1
}

// The late decision: the socket's stored time, if it is in the book, the scan's time, how many records there are and how many fit.
// Ruled out: an equal time that replaces; a full book that refuses a later scan of a socket in it.
#[tactic(auto, unfolding(crate::specs::Fates::fate_of))]
pub fn decide(stored: Option<u32>, time: u32, count: usize, room: usize) -> Fate
    ensures { result ≡ fate_of (is_some stored) (unwrap_or stored 0) time count room }
{
    match stored {
        Some(before) if before < time => Fate::Replaces,
        Some(_) => Fate::Late,
        None if count < room => Fate::Adds,
        None => Fate::Full,
    }
}

// Whether the book is sound. Nothing is read past its room.
// Ruled out: a socket twice let through; a record past the count that is judged.
pub fn is_sound(book: &[Record], count: usize) -> bool
    ensures { result ≡ is_sound book.now count }
{
    if room_of(book.len()) < count {
        return false;
    }
    for i in 0..count {
        if !is_sound_at(book, i) {
            return false;
        }
    }
    true
}

// An entry is judged, and takes its place where it is accepted; where there is none nothing is done.
// Ruled out: a late entry written; a new socket's record before the last.
pub fn enter(book: &mut [Record], count: usize, entry: Option<Record>) -> Option<Entered>
    requires { ForSome entry (λ _. count ≤ room_of (length book.old)) }
    ensures { Enters entry count book.old book.new result }
{
    let entry = entry?;
    let judged = judge(book, count, entry);
    Some(match judged.fate {
        Fate::Replaces => {
            replace(book, judged.at, entry);
            judged
        }
        Fate::Adds => Entered {
            count: append(book, count, entry),
            ..judged
        },
        Fate::Late | Fate::Full => judged,
    })
}

// The record at a place is in range, and none before it has its number.
fn is_sound_at(book: &[Record], at: usize) -> bool
    requires { at < length book.now }
    ensures { result ≡ (in_range (get_or book.now at blank) && eqb (place_of book.now at (get_or book.now at blank).number) at) }
{
    let entry = book[at];
    in_range(entry) && find(&book[..at], entry.number).is_none()
}

// The ranges of a record's number, length and time.
#[tactic(auto, unfolding(crate::specs::Books::in_range, crate::specs::Books::are_in_range, crate::specs::Books::is_place_length))]
fn in_range(entry: Record) -> bool
    ensures { result ≡ in_range entry }
{
    entry.number <= GREATEST && entry.time <= GREATEST && (1..=PLACE_MOST).contains(&entry.length)
}

// What becomes of an entry, before anything is written: its fate, its place, and the count before it.
fn judge(book: &[Record], count: usize, entry: Record) -> Entered
    requires { count ≤ room_of (length book.now) }
    ensures { (result.fate ≡ fate_in book.now count entry) × (result.at ≡ place_of book.now count entry.number) × (result.count ≡ count) }
{
    let room = room_of(book.len());
    match find(&book[..count], entry.number) {
        Some(at) => Entered {
            fate: decide(Some(time_at(book, count, at)), entry.time, count, room),
            at,
            count,
        },
        None => Entered {
            fate: decide(None, entry.time, count, room),
            at: count,
            count,
        },
    }
}
