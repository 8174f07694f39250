// Lists the tokens of scripts, to be compared with what the reference interpreter says of them. On standard input each script has its
// length in front of it, four bytes, the lowest first.
#![tactic(auto)]

use semantics::{Fault, Kind};
use std::io;
use std::io::{Read, Write};
use token::Refused;

fn say_number<W: Write>(out: &mut W, n: usize) -> io::Result<()> {
    if n <= 0xFFFF_FFFF {
        let mut digits = [0u8; 10];
        let end = text::write_decimal(&mut digits, 0, n as u32);
        return out.write_all(&digits[..end]);
    }
    Ok(())
}

fn say_kind<W: Write>(out: &mut W, kind: Kind) -> io::Result<()> {
    match kind {
        Kind::Integer => out.write_all(b"kind=integer next="),
        Kind::String => out.write_all(b"kind=string next="),
        Kind::LiteralName => out.write_all(b"kind=literalname next="),
        Kind::ExecutableName => out.write_all(b"kind=executablename next="),
        Kind::OpenBrace => out.write_all(b"kind=openbrace next="),
        Kind::CloseBrace => out.write_all(b"kind=closebrace next="),
        Kind::End => out.write_all(b"kind=end next="),
    }
}

// A fault of these words, with the offset of the first byte that could not be accepted.
fn say_place<W: Write>(out: &mut W, words: &[u8], place: u32) -> io::Result<()> {
    out.write_all(words)?;
    say_number(out, place as usize)?;
    out.write_all(b"\n")
}

fn say_fault<W: Write>(out: &mut W, fault: Fault) -> io::Result<()> {
    match fault {
        Fault::BadNumber(place) => say_place(out, b"badnumber ", place),
        Fault::BadEscape(place) => say_place(out, b"badescape ", place),
        Fault::OpenString(place) => say_place(out, b"openstring ", place),
        Fault::BadBrace(place) => say_place(out, b"badbrace ", place),
        Fault::BadByte(place) => say_place(out, b"badbyte ", place),
        Fault::OverLimit => out.write_all(b"limitcheck\n"),
    }
}

// One line: the token from `offset` on. The list goes on at the offset after it, or is at its end.
fn say_token<W: Write>(out: &mut W, script: &[u8], offset: usize) -> io::Result<Option<usize>> {
    match token::read(script, offset) {
        Err(Refused::TooLong) => {
            out.write_all(b"refused=1\n")?;
            Ok(None)
        }
        Err(Refused::PastEnd) => {
            out.write_all(b"refused=10\n")?;
            Ok(None)
        }
        Err(Refused::Faulty(fault)) => {
            say_fault(out, fault)?;
            Ok(None)
        }
        Ok((kind, next)) => {
            say_kind(out, kind)?;
            say_number(out, next)?;
            out.write_all(b" part=")?;
            out.write_all(token::part(script, offset))?;
            out.write_all(b"\n")?;
            Ok(if kind == Kind::End { None } else { Some(next) })
        }
    }
}

// A token has a byte at least, so no list is longer than its script and the end.
fn list<W: Write>(out: &mut W, script: &[u8]) -> io::Result<()> {
    out.write_all(b"script ")?;
    say_number(out, script.len())?;
    out.write_all(b"\n")?;
    let mut offset = 0;
    for _ in 0..=script.len() {
        let Some(next) = say_token(out, script, offset)? else {
            return Ok(());
        };
        offset = next;
    }
    Ok(())
}

// No script here is as long as the fourth byte could say.
fn length_of(head: [u8; 4]) -> usize {
    u32::from_le_bytes([head[0], head[1], head[2], 0]) as usize
}

// A script of so many bytes, if there are so many.
fn list_read<R: Read, W: Write>(from: &mut R, out: &mut W, script: &mut [u8]) -> io::Result<bool> {
    if input::read_full(from, script)? < script.len() {
        return Ok(false);
    }
    list(out, script)?;
    Ok(true)
}

// The next script, if there is one.
fn list_next<R: Read, W: Write>(from: &mut R, out: &mut W, space: &mut [u8]) -> io::Result<bool> {
    let mut head = [0u8; 4];
    if input::read_full(from, &mut head)? < 4 {
        return Ok(false);
    }
    let length = length_of(head);
    if space.len() < length {
        return Ok(false);
    }
    list_read(from, out, &mut space[..length])
}

// Nothing says that the input ends, so the turns are counted.
fn list_all<R: Read, W: Write>(from: &mut R, out: &mut W, space: &mut [u8]) -> io::Result<()> {
    for _ in 0..100000 {
        if !list_next(from, out, space)? {
            return Ok(());
        }
    }
    Ok(())
}

fn main(rt: HostRuntime) -> io::Result<()> {
    let mut space = [0u8; 65536];
    list_all(&mut rt.stdin(), &mut rt.stdout(), &mut space)
}
