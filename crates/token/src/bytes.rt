// Bytes of a script: what each may begin, the space and comment to pass over, and the end of a run of name bytes.
ghost use Rattle.std.specs.List.{position_or_len};
ghost use Rattle.std.specs.Prelude.{◌≡◌, Bool, ℕ, ◌+◌, ◌≤◌, length, drop};
ghost use Rattle.semantics.specs.Tokens as tokens;
ghost use Rattle.token.specs.Bytes.{class_is};

// What a token's first byte begins.
#[derive(Clone, Copy, PartialEq, Eq, Debug)]
pub enum Class {
    NameByte,
    Bracket,
    OpenBrace,
    CloseBrace,
    Quote,
    Slash,
    Other,
}

pub fn within(low: u8, high: u8, b: u8) -> bool
    ensures { result ≡ tokens.within low high b }
{
    low <= b && b <= high
}

pub fn is_digit(b: u8) -> bool
    ensures { result ≡ tokens.is_digit b }
{
    within(b'0', b'9', b)
}

pub fn is_octal(b: u8) -> bool
    ensures { result ≡ tokens.is_octal b }
{
    within(b'0', b'7', b)
}

pub fn is_break(b: u8) -> bool
    ensures { result ≡ tokens.is_break b }
{
    b == b'\n' || b == b'\r'
}

pub fn is_space(b: u8) -> bool
    ensures { result ≡ tokens.is_space b }
{
    b == b'\t' || is_break(b) || b == b' '
}

pub fn is_name_byte(b: u8) -> bool
    ensures { result ≡ tokens.is_name_byte b }
{
    within(33, 126, b) && !matches!(b, b'[' | b']' | b'{' | b'}' | b'"' | b'#' | b'/')
}

pub fn class_of(b: u8) -> Class
    ensures { class_is result ≡ tokens.class_of b }
{
    if is_name_byte(b) {
        return Class::NameByte;
    }
    match b {
        b'[' | b']' => Class::Bracket,
        b'{' => Class::OpenBrace,
        b'}' => Class::CloseBrace,
        b'"' => Class::Quote,
        b'/' => Class::Slash,
        _ => Class::Other,
    }
}

// A byte of space or comment.
#[tactic(auto, unfolding(semantics::specs::Tokens::is_blank))]
fn is_blank(in_comment: bool, b: u8) -> bool
    ensures { result ≡ tokens.is_blank in_comment b }
{
    in_comment || is_space(b) || b == b'#'
}

// Whether the byte after b is in a comment.
#[tactic(auto, unfolding(semantics::specs::Tokens::comment_after))]
fn comment_after(in_comment: bool, b: u8) -> bool
    ensures { result ≡ tokens.comment_after in_comment b }
{
    if in_comment { !is_break(b) } else { b == b'#' }
}

// How far the space and comment from `at` on reach.
pub fn blank_end(script: &[u8], at: usize) -> usize
    requires { at ≤ length script.now }
    ensures value { result ≡ at + tokens.blanks (drop at script.now) }
    ensures upper_bound { result ≤ length script.now }
{
    let mut comment = false;
    for i in at..script.len() {
        let b = script[i];
        if !is_blank(comment, b) {
            return i;
        }
        comment = comment_after(comment, b);
    }
    script.len()
}

// The offset of the first byte from `at` on that passes a test, or the script's length.
// Ruled out: a later byte that passes; the length where a byte passes.
pub fn first_from<F: Fn(u8) -> bool>(script: &[u8], at: usize, test: F) -> usize
    requires in_bounds { at ≤ length script.now }
    requires callable { F.IsAlwaysCallable test }
    ensures value { (p : ℕ → Bool) → ((b : ℕ) (r : Bool) → F.post test b r → r ≡ p b) → result ≡ at + position_or_len p (drop at script.now) }
    ensures upper_bound { result ≤ length script.now }
{
    let rest = &script[at..];
    at + rest.iter().position(|b| test(*b)).unwrap_or(rest.len())
}

// How far the name bytes from `at` on reach.
pub fn run_end(script: &[u8], at: usize) -> usize
    requires { at ≤ length script.now }
    ensures value { result ≡ at + tokens.run (drop at script.now) }
    ensures upper_bound { result ≤ length script.now }
{
    first_from(script, at, |b| !is_name_byte(b))
}
