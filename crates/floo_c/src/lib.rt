// The runner and the token reading for programs in C and Rust: two exported functions, which include/floo.h declares. A slice is a pointer and a length there.
#![tactic(auto)]

ghost use Rattle.std.specs.Prelude.{◌≡◌, ◌+◌, ◌≤◌, length};
ghost use Rattle.semantics.specs.Setup as setup;
ghost use Rattle.floo_c.specs.Reply.{Replies};
ghost use Rattle.floo_c.specs.TokenReply.{token_reply_of, number_of, place_of, kind_number};

use semantics::{Fault, Kind};
use token::Refused;

// The number of the refusal, or 0 and what the run came to.
#[repr(C)]
#[derive(Clone, Copy)]
pub struct Reply {
    pub refused: u32,
    pub steps: u32,
    pub log: usize,
    pub outcome: usize,
}

// The number of the refusal, of the fault or of the token's kind, the other two being 0; the offset of the first byte that could not be accepted, of a fault that
// has one; the offset after the token, and where in the script its own bytes begin and how many they are. A function for C can hand out no part of a slice.
#[repr(C)]
#[derive(Clone, Copy)]
pub struct TokenReply {
    pub refused: u32,
    pub fault: u32,
    pub kind: u32,
    pub place: u32,
    pub next: usize,
    pub start: usize,
    pub size: usize,
}

// A script is run with what is lent, or refused.
// Ruled out: a refusal told as a run of no steps; the two counts exchanged.
#[unsafe(no_mangle)]
pub extern "C" fn floo_run(
    script: &[u8],
    fuel: u32,
    stack: &mut [u32],
    execution: &mut [u32],
    dictionary: &mut [u32],
    cells: &mut [u32],
    log: &mut [u8],
    outcome: &mut [u8],
) -> Reply
    ensures { Replies script.now fuel stack.old stack.new execution.old execution.new dictionary.old dictionary.new cells.old cells.new log.old log.new outcome.old outcome.new result }
{
    match runner::run(
        script, fuel, stack, execution, dictionary, cells, log, outcome,
    ) {
        Err(refusal) => Reply {
            refused: refusal.number(),
            steps: 0,
            log: 0,
            outcome: 0,
        },
        Ok(report) => Reply {
            refused: 0,
            steps: report.steps,
            log: report.log,
            outcome: report.outcome,
        },
    }
}

// The next token of a script from `offset` on.
// Ruled out: start and size exchanged; a fault or a refusal that moves the offset on.
#[unsafe(no_mangle)]
pub extern "C" fn floo_token(script: &[u8], offset: usize) -> TokenReply
    ensures value { result ≡ token_reply_of offset (setup.reading script.now offset) }
    ensures size_in_bounds { result.start + result.size ≤ length script.now }
{
    match token::locate(script, offset) {
        Ok(token) => TokenReply {
            refused: 0,
            fault: 0,
            kind: kind_number(token.kind),
            place: 0,
            next: token.next,
            start: token.start,
            size: token.size,
        },
        Err(Refused::TooLong) => no_token(1, 0, 0, offset),
        Err(Refused::PastEnd) => no_token(10, 0, 0, offset),
        Err(Refused::Faulty(f)) => no_token(0, number_of(f), place_of(f), offset),
    }
}

// A refusal or a fault: the offset after is the one given, and the part is empty.
fn no_token(refused: u32, fault: u32, place: u32, offset: usize) -> TokenReply
    ensures { result ≡ record { refused = refused; fault = fault; kind = 0; place = place; next = offset; start = 0; size = 0 } }
{
    TokenReply {
        refused,
        fault,
        kind: 0,
        place,
        next: offset,
        start: 0,
        size: 0,
    }
}

// A fault by its number: C has no name for the enum.
fn number_of(f: Fault) -> u32
    ensures { result ≡ number_of f }
{
    match f {
        Fault::BadNumber(_) => 13,
        Fault::BadEscape(_) => 14,
        Fault::OpenString(_) => 15,
        Fault::BadBrace(_) => 16,
        Fault::BadByte(_) => 17,
        Fault::OverLimit => 2,
    }
}

fn place_of(f: Fault) -> u32
    ensures { result ≡ place_of f }
{
    match f {
        Fault::BadNumber(place) => place,
        Fault::BadEscape(place) => place,
        Fault::OpenString(place) => place,
        Fault::BadBrace(place) => place,
        Fault::BadByte(place) => place,
        Fault::OverLimit => 0,
    }
}

// A kind by its number.
fn kind_number(k: Kind) -> u32
    ensures { result ≡ kind_number k }
{
    match k {
        Kind::Integer => 1,
        Kind::String => 2,
        Kind::LiteralName => 3,
        Kind::ExecutableName => 4,
        Kind::OpenBrace => 5,
        Kind::CloseBrace => 6,
        Kind::End => 7,
    }
}
