// Lines of text as steps.
ghost use Rattle.std.specs.Prelude.{◌≤◌, length};

// A step: the first byte of its word, and its last three numbers.
#[derive(Clone, Copy)]
pub struct Step {
    pub what: u8,
    pub a: u16,
    pub b: u16,
    pub c: u16,
}

// The first byte b of a text, or the text's end.
pub fn find(text: &[u8], b: u8) -> usize
    ensures { result ≤ length text.now }
{
    text.iter().position(|x| *x == b).unwrap_or(text.len())
}

// A digit lengthens the last number. Any other byte makes room for the next.
fn taken(step: Step, byte: u8) -> Step {
    match byte {
        b'0'..=b'9' => Step {
            c: step.c.wrapping_mul(10).wrapping_add(u16::from(byte - b'0')),
            ..step
        },
        _ => Step {
            a: step.b,
            b: step.c,
            c: 0,
            ..step
        },
    }
}

pub fn read(text: &[u8]) -> Step {
    let start = Step {
        what: text.first().copied().unwrap_or(0),
        a: 0,
        b: 0,
        c: 0,
    };
    text.iter().fold(start, |step, byte| taken(step, *byte))
}
