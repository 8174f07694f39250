// Items of a Forf script: the next one from an offset on, a substack read whole to its closing brace, and how many items it has. A substack is known by the
// offset after its opening brace, and is read again from the script whenever it runs.
#![tactic(auto)]

ghost use Rattle.std.specs.Prelude.{◌≡◌, ◌≤◌, length};
ghost use Rattle.semantics.specs.Sizes.{script_most};
ghost use Rattle.forf_semantics.specs.Items.{count};
ghost use Rattle.forf_semantics.specs.EndLaws.{group_end};
ghost use Rattle.forf_semantics.specs.BodyLaws.{body_at, Known};
ghost use Rattle.forf_groups.specs.Reading.{ended_is, Readable, ReadAt};

use forf_token::{SyntaxError, Token};

// How many braces may be open inside another.
const INNER: u32 = 15;

// An item: an integer by its 32 bits, a word by where its bytes begin and how many they are, a substack by the offset after its brace.
#[derive(Clone, Copy, PartialEq, Eq, Debug)]
pub enum Item {
    Number(u32),
    Word(usize, usize),
    Substack(usize),
}

// The item of the token at `start`, which is neither space nor comment, and the offset after it; or there is none: a closing brace, the end, or a syntaxerror.
// Ruled out: an inner substack whose items are taken for the outer one's; a word that is looked up before it is taken.
pub fn read_item(script: &[u8], start: usize) -> Option<(Item, usize)>
    requires { Readable script.now start }
    ensures { ReadAt script.now start result }
{
    let Ok((token, next)) = forf_token::token_at(script, start) else {
        return None;
    };
    match token {
        Token::Integer(w) => Some((Item::Number(w), next)),
        Token::Word => Some((Item::Word(start, next - start), next)),
        Token::OpenBrace => {
            let Ok(end) = group_end(script, next, INNER) else {
                return None;
            };
            Some((Item::Substack(next), end))
        }
        Token::CloseBrace => None,
        Token::End => None,
    }
}

// The offset after the closing brace of a group whose opening brace is before `from`, with `depth` levels of inner groups left; or a syntaxerror in it.
// Ruled out: the 17th open brace taken; a brace in a comment that closes the group.
pub fn group_end(script: &[u8], from: usize, depth: u32) -> Result<usize, SyntaxError>
    requires { (1 ≤ from) × Readable script.now from }
    ensures { ended_is result ≡ group_end script.now depth from }
{
    let mut at = from;
    loop {
        let start = forf_token::skip(script, at);
        let (token, next) = forf_token::token_at(script, start)?;
        match token {
            Token::Integer(_) => {
                at = next;
            }
            Token::Word => {
                at = next;
            }
            Token::OpenBrace => {
                if depth == 0 {
                    return Err(SyntaxError);
                }
                at = group_end(script, next, depth - 1)?;
            }
            Token::CloseBrace => {
                return Ok(next);
            }
            Token::End => {
                return Err(SyntaxError);
            }
        }
    }
}

// How many items a substack has; an inner one is one.
// Ruled out: an inner substack's items counted too; the closing brace counted.
pub fn count_items(script: &[u8], from: usize) -> u32
    requires { Known script.now from × (length script.now ≤ script_most) }
    ensures { result ≡ count (body_at script.now from) }
{
    let mut at = from;
    let mut n: u32 = 0;
    while let Some((_, next)) = read_item(script, forf_token::skip(script, at)) {
        n += 1;
        at = next;
    }
    n
}
