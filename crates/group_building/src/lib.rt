// A brace group that has been judged, and whose names have slots, put into the cells of its array: element after element along the chain, an inner group in
// the array that is made for it. What judging has ruled out (a fault, the end of the script) is not met again.
#![tactic(auto)]

ghost use Rattle.std.specs.Prelude.{◌<◌};
ghost use Rattle.elements.specs.Elements.{HasCell};
ghost use Rattle.group_building.specs.Building.{Ready, Builds, Readable, PieceAt, ReadyLeaf, PutsLeaf, ReadyName, PutsName, ReadyOpen, Opens, FirstCell};

use machine::{Machine, TAG_EXECUTABLE, TAG_INTEGER, TAG_LITERAL};
use token::Token;

// The machine, and the offset after the group.
#[derive(Clone, Copy)]
pub struct Built {
    pub machine: Machine,
    pub next: usize,
}

// The machine with an inner group's array, and the cell of its first element.
#[derive(Clone, Copy)]
struct Opened {
    pub machine: Machine,
    pub first: u32,
}

// A token of a group, and the offset after it: an element that is no group, or a brace.
#[derive(Clone, Copy, PartialEq, Eq, Debug)]
enum Piece {
    Leaf(Token, usize),
    Open(usize),
    Close(usize),
}

// The elements from `from` on go into the cells from `first` on.
// Ruled out: an inner group's elements in the outer array; a string whose escapes are left unread.
pub fn build(
    m: Machine,
    dict: &[u32],
    cells: &mut [u32],
    script: &[u8],
    from: usize,
    first: u32,
    depth: u32,
) -> Built
    requires { Ready dict.now script.now depth m cells.old from first }
    ensures { Builds dict.now script.now depth m cells.old from first result.machine cells.new result.next }
{
    let mut r = m;
    let mut at = from;
    let mut c = first;
    loop {
        match read_piece(script, at) {
            Piece::Leaf(read, next) => {
                r = put_leaf(r, dict, cells, script, read, c);
                at = next;
                c = heap::next(cells, c);
            }
            Piece::Open(next) => {
                let opened = open_group(r, cells, script, next, c, depth);
                let built = build(
                    opened.machine,
                    dict,
                    cells,
                    script,
                    next,
                    opened.first,
                    depth - 1,
                );
                r = built.machine;
                at = built.next;
                c = heap::next(cells, c);
            }
            Piece::Close(next) => {
                return Built { machine: r, next };
            }
        }
    }
}

// The cell of an array's first element, if it has one: where its building starts.
// Ruled out: a cell of an array that has none; the header taken for its first cell.
pub fn first_cell(cells: &[u32], header: u32, size: usize) -> u32
    requires { 0 < size → HasCell cells.now header 0 }
    ensures { FirstCell cells.now header size result }
{
    if size == 0 {
        return 0;
    }
    heap::seek(cells, header, 0)
}

// The token of a group from `at` on.
fn read_piece(script: &[u8], at: usize) -> Piece
    requires { Readable script.now at }
    ensures { PieceAt script.now at result }
{
    let start = token::skip(script, at);
    let (read, next) = token::token_at(script, start).unwrap();
    match read {
        Token::OpenBrace => Piece::Open(next),
        Token::CloseBrace => Piece::Close(next),
        // the group ends before the script does
        Token::End => unreachable!(),
        _ => Piece::Leaf(read, next),
    }
}

// The element that cell c is becomes the value of a token that is no brace.
fn put_leaf(
    m: Machine,
    dict: &[u32],
    cells: &mut [u32],
    script: &[u8],
    read: Token,
    c: u32,
) -> Machine
    requires { ReadyLeaf dict.now script.now read m cells.old c }
    ensures { PutsLeaf dict.now script.now read m cells.old c result cells.new }
{
    match read {
        Token::Integer(w) => {
            construction::set_plain(cells, c, TAG_INTEGER, w);
            m
        }
        Token::String(from, size) => {
            let placed = construction::set_string(m, cells, c, size as u32);
            strings::fill_at(cells, placed.header, script, from);
            placed.machine
        }
        Token::ExecutableName(from, size) => {
            put_name(
                m,
                dict,
                cells,
                &script[from..from + size],
                TAG_EXECUTABLE,
                c,
            );
            m
        }
        Token::LiteralName(from, size) => {
            put_name(m, dict, cells, &script[from..from + size], TAG_LITERAL, c);
            m
        }
        _ => unreachable!(),
    }
}

// It becomes a name, with this tag, that has a slot.
fn put_name(m: Machine, dict: &[u32], cells: &mut [u32], name: &[u8], tag: u32, c: u32)
    requires { ReadyName dict.now name.now tag m cells.old c }
    ensures { PutsName dict.now name.now tag m cells.old c cells.new }
{
    let slot = dictionary::find(m, dict, name).unwrap();
    construction::set_plain(cells, c, tag, slot as u32);
}

// It becomes a new array for the group whose opening brace ends at `next`.
fn open_group(
    m: Machine,
    cells: &mut [u32],
    script: &[u8],
    next: usize,
    c: u32,
    depth: u32,
) -> Opened
    requires { ReadyOpen script.now depth m cells.old next c }
    ensures { Opens script.now depth m cells.old next c result.machine cells.new result.first }
{
    let judged = groups::judge(script, next, depth - 1).unwrap();
    let placed = construction::set_array(m, cells, c, judged.size as u32);
    let first = first_cell(cells, placed.header, judged.size);
    Opened {
        machine: placed.machine,
        first,
    }
}
