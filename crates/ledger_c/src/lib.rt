// The ledger for programs in C and Rust: two exported functions, which include/floor.h declares. A slice is a pointer and a length there.
#![tactic(auto)]

ghost use Rattle.std.specs.Prelude.{◌≡◌, Err};
ghost use Rattle.ledger_c.specs.Reply.{written_number, read_number, of_written, of_reading, WriteReplies, ReadReplies};

use book::Record;
use ledger_reader::LedgerError;
use ledger_writer::WriteError;

// The answer by its number, and how many bytes were written or records read; 0 where it is refused.
#[repr(C)]
#[derive(Clone, Copy)]
pub struct Reply {
    pub answer: u32,
    pub count: usize,
}

// The book is written into the lent text.
// Ruled out: one refusal told as another; records told for bytes.
#[unsafe(no_mangle)]
pub extern "C" fn floor_write_ledger(book: &[Record], count: usize, text: &mut [u8]) -> Reply
    ensures { WriteReplies book.now count text.old text.new result }
{
    reply_written(ledger_writer::write(book, count, text))
}

// The book is read from the text.
// Ruled out: one refusal told as another; a refused text that changes the book.
#[unsafe(no_mangle)]
pub extern "C" fn floor_read_ledger(text: &[u8], book: &mut [Record]) -> Reply
    ensures { ReadReplies text.now book.old book.new result }
{
    reply_read(ledger_reader::read(text, book))
}

fn reply_written(written: Result<usize, WriteError>) -> Reply
    ensures { result ≡ of_written written }
{
    match written {
        Ok(bytes) => Reply {
            answer: DONE,
            count: bytes,
        },
        Err(error) => Reply {
            answer: write_number(error),
            count: 0,
        },
    }
}

fn reply_read(read: Result<usize, LedgerError>) -> Reply
    ensures { result ≡ of_reading read }
{
    match read {
        Ok(records) => Reply {
            answer: DONE,
            count: records,
        },
        Err(error) => Reply {
            answer: read_number(error),
            count: 0,
        },
    }
}

// The answers by their numbers: C has no name for the enums.
const DONE: u32 = 10;

fn write_number(error: WriteError) -> u32
    ensures { result ≡ written_number (Err error) }
{
    match error {
        WriteError::BookMalformed => 1,
        WriteError::TooShort => 9,
    }
}

fn read_number(error: LedgerError) -> u32
    ensures { result ≡ read_number (Err error) }
{
    match error {
        LedgerError::BadHeader => 2,
        LedgerError::BadQuoting => 3,
        LedgerError::FieldCount => 4,
        LedgerError::BadNumber => 5,
        LedgerError::BadPlace => 6,
        LedgerError::SocketTwice => 7,
        LedgerError::TooMany => 8,
    }
}
