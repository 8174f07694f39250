// The judging of a brace group before anything is made: its tokens from left to right up to the first fault, how many elements it has, and the cells that
// its inner groups and strings want. `judge` answers as the definition's reading of the group does.
#![tactic(auto)]

ghost use Rattle.std.specs.Prelude.{◌≡◌, ◌^◌, ◌≤◌, ◌<◌, length};
ghost use Rattle.groups.specs.Parsing.{JudgedAs, WeighedAs};

use semantics::Fault;
use token::Token;

// How many elements a group has, the cells of the objects in it, and the offset after it.
#[derive(Clone, Copy, PartialEq, Eq, Debug)]
pub struct Judged {
    pub size: usize,
    pub wants: usize,
    pub next: usize,
}

// What a token is to a group: an element, with the cells that its object takes; a brace; or the script's end.
#[derive(Clone, Copy, PartialEq, Eq, Debug)]
enum Weight {
    Element(usize),
    Open,
    Close,
    End,
}

// The rest of a group, whose opening brace is before `from`, with `depth` levels of inner groups left.
// Ruled out: a fault after the group's end that is noticed; the 17th brace taken where an earlier token is at fault; an unclosed group that points at the outermost
// brace.
pub fn judge(script: &[u8], from: usize, depth: u32) -> Result<Judged, Fault>
    requires { (1 ≤ from) × (from ≤ length script.now) × (length script.now < 2 ^ 32) }
    ensures { JudgedAs script.now depth from result }
{
    let mut at = from;
    let mut size = 0;
    let mut wants = 0;
    loop {
        let (weight, next) = weigh(script, at)?;
        match weight {
            Weight::Element(cells) => {
                size += 1;
                wants += cells;
                at = next;
            }
            Weight::Open => {
                if depth == 0 {
                    return Err(Fault::OverLimit);
                }
                let inner = judge(script, next, depth - 1)?;
                size += 1;
                wants += inner.size + 1 + inner.wants;
                at = inner.next;
            }
            Weight::Close => {
                return Ok(Judged { size, wants, next });
            }
            // the opening brace of this group is the innermost one that is open
            Weight::End => {
                return Err(Fault::BadBrace((from - 1) as u32));
            }
        }
    }
}

// What the token of a group from `at` on is to it, and the offset after the token.
fn weigh(script: &[u8], at: usize) -> Result<(Weight, usize), Fault>
    requires { (at ≤ length script.now) × (length script.now < 2 ^ 32) }
    ensures { WeighedAs script.now at result }
{
    let start = token::skip(script, at);
    let (read, next) = token::token_at(script, start)?;
    match read {
        Token::Integer(_) => Ok((Weight::Element(0), next)),
        Token::String(_, size) => Ok((Weight::Element(1 + (size + 7) / 8), next)),
        Token::ExecutableName(_, _) => Ok((Weight::Element(0), next)),
        Token::LiteralName(_, _) => Ok((Weight::Element(0), next)),
        Token::OpenBrace => Ok((Weight::Open, next)),
        Token::CloseBrace => Ok((Weight::Close, next)),
        Token::End => Ok((Weight::End, next)),
    }
}
