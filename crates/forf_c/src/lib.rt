// The runner and the token reading of Forf for programs in C and Rust: two exported functions, which include/forf.h declares. A slice is a pointer and a length there.
#![tactic(auto)]

ghost use Rattle.std.specs.Prelude.{◌≡◌, ◌+◌, ◌≤◌, length};
ghost use Rattle.forf_semantics.specs.Setup as setup;
ghost use Rattle.forf_c.specs.Reply.{Replies, reply_of, token_reply_of, kind_number};

use forf_runner::{Refusal, Report};
use forf_semantics::Kind;
use forf_token::Refused;

// The number of the refusal, or 0; 1 where the memory has not 32 slots, or 0; and what the run came to.
#[repr(C)]
#[derive(Clone, Copy)]
pub struct Reply {
    pub refused: u32,
    pub memory: u32,
    pub steps: u32,
    pub outcome: usize,
}

// The number of the refusal, 1 where the token is a syntaxerror, or the number of the token's kind, the other two being 0; the offset after the token, and where in
// the script its own bytes begin and how many they are.
#[repr(C)]
#[derive(Clone, Copy)]
pub struct TokenReply {
    pub refused: u32,
    pub fault: u32,
    pub kind: u32,
    pub next: usize,
    pub start: usize,
    pub size: usize,
}

// A script is run with what is lent, or refused.
// Ruled out: a refusal told as a run of no steps; a memory of 31 slots told as refusal 1.
#[unsafe(no_mangle)]
pub extern "C" fn forf_run(
    script: &[u8],
    fuel: u32,
    stack: &mut [u32],
    execution: &mut [u32],
    memory: &mut [u32],
    outcome: &mut [u8],
) -> Reply
    ensures { Replies script.now fuel stack.old stack.new execution.old execution.new memory.old memory.new outcome.old outcome.new result }
{
    let answer = forf_runner::run(script, fuel, stack, execution, memory, outcome);
    reply_of(answer)
}

// The next token of a script from `offset` on.
// Ruled out: start and size exchanged; a fault or a refusal that moves the offset on.
#[unsafe(no_mangle)]
pub extern "C" fn forf_token(script: &[u8], offset: usize) -> TokenReply
    ensures value { result ≡ token_reply_of offset (setup.reading script.now offset) }
    ensures size_in_bounds { result.start + result.size ≤ length script.now }
{
    match forf_token::locate(script, offset) {
        Ok(token) => TokenReply {
            refused: 0,
            fault: 0,
            kind: kind_number(token.kind),
            next: token.next,
            start: token.start,
            size: token.size,
        },
        Err(Refused::TooLong) => no_token(1, 0, offset),
        Err(Refused::PastEnd) => no_token(10, 0, offset),
        Err(Refused::Faulty(_)) => no_token(0, 1, offset),
    }
}

// An answer by its numbers: C has no name for the enum.
fn reply_of(answer: Result<Report, Refusal>) -> Reply
    ensures { result ≡ reply_of answer }
{
    match answer {
        Ok(report) => Reply {
            refused: 0,
            memory: 0,
            steps: report.steps,
            outcome: report.outcome,
        },
        Err(refusal) => match refusal.number() {
            Some(refused) => Reply {
                refused,
                memory: 0,
                steps: 0,
                outcome: 0,
            },
            None => Reply {
                refused: 0,
                memory: 1,
                steps: 0,
                outcome: 0,
            },
        },
    }
}

// A refusal or a fault: the offset after is the one given, and the part is empty.
fn no_token(refused: u32, fault: u32, offset: usize) -> TokenReply
    ensures { result ≡ record { refused = refused; fault = fault; kind = 0; next = offset; start = 0; size = 0 } }
{
    TokenReply {
        refused,
        fault,
        kind: 0,
        next: offset,
        start: 0,
        size: 0,
    }
}

// A kind by its number.
fn kind_number(k: Kind) -> u32
    ensures { result ≡ kind_number k }
{
    match k {
        Kind::Integer => 1,
        Kind::Word => 2,
        Kind::OpenBrace => 3,
        Kind::CloseBrace => 4,
        Kind::End => 5,
    }
}
