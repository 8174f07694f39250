// The words, in the order of the definition's table, and which one some bytes are, by a key of them.
ghost use Rattle.std.specs.Prelude.{◌≡◌, ◌≤◌, length, min};
ghost use Rattle.forf_machine.specs.Titles.{titles, place_of, place_in, key_of, keys, key_place};

// The longest word of the table, ifelse.
const LONGEST: usize = 6;

#[derive(Clone, Copy, PartialEq, Eq, Debug)]
pub enum Word {
    Not,
    IsZero,
    Abs,
    Add,
    Sub,
    Mul,
    Div,
    Rem,
    And,
    Or,
    Xor,
    Left,
    Right,
    Gt,
    Ge,
    Lt,
    Le,
    Eq,
    Ne,
    If,
    Ifelse,
    Pop,
    Dup,
    Exch,
    Mset,
    Mget,
}

// The word of these bytes, if they are one.
pub fn operator_of(word: &[u8]) -> Option<Word>
    ensures { place_of result ≡ place_in titles word.now }
{
    if LONGEST < word.len() {
        return None;
    }
    word_of(key_of(word))
}

// The bytes one after another, after a 1: so words of different bytes have different keys.
fn key_of(word: &[u8]) -> u64
    requires { length word.now ≤ 6 }
    ensures { result ≡ key_of word.now }
{
    let mut key: u64 = 1;
    for b in word {
        key = key * 256 + u64::from(*b);
    }
    key
}

fn word_of(key: u64) -> Option<Word>
    ensures { place_of result ≡ key_place keys key }
{
    match key {
        0x1_7E => Some(Word::Not), // ~
        0x1_21 => Some(Word::IsZero), // !
        0x1_61_62_73 => Some(Word::Abs), // abs
        0x1_2B => Some(Word::Add), // +
        0x1_2D => Some(Word::Sub), // -
        0x1_2A => Some(Word::Mul), // *
        0x1_2F => Some(Word::Div), // /
        0x1_25 => Some(Word::Rem), // %
        0x1_26 => Some(Word::And), // &
        0x1_7C => Some(Word::Or), // |
        0x1_5E => Some(Word::Xor), // ^
        0x1_3C_3C => Some(Word::Left), // <<
        0x1_3E_3E => Some(Word::Right), // >>
        0x1_3E => Some(Word::Gt), // >
        0x1_3E_3D => Some(Word::Ge), // >=
        0x1_3C => Some(Word::Lt), // <
        0x1_3C_3D => Some(Word::Le), // <=
        0x1_3D => Some(Word::Eq), // =
        0x1_3C_3E => Some(Word::Ne), // <>
        0x1_69_66 => Some(Word::If), // if
        0x1_69_66_65_6C_73_65 => Some(Word::Ifelse), // ifelse
        0x1_70_6F_70 => Some(Word::Pop), // pop
        0x1_64_75_70 => Some(Word::Dup), // dup
        0x1_65_78_63_68 => Some(Word::Exch), // exch
        0x1_6D_73_65_74 => Some(Word::Mset), // mset
        0x1_6D_67_65_74 => Some(Word::Mget), // mget
        _ => None,
    }
}

// The word of this number, if there is one.
pub fn word_at(k: u32) -> Option<Word>
    ensures { place_of result ≡ min k 26 }
{
    match k {
        0 => Some(Word::Not),
        1 => Some(Word::IsZero),
        2 => Some(Word::Abs),
        3 => Some(Word::Add),
        4 => Some(Word::Sub),
        5 => Some(Word::Mul),
        6 => Some(Word::Div),
        7 => Some(Word::Rem),
        8 => Some(Word::And),
        9 => Some(Word::Or),
        10 => Some(Word::Xor),
        11 => Some(Word::Left),
        12 => Some(Word::Right),
        13 => Some(Word::Gt),
        14 => Some(Word::Ge),
        15 => Some(Word::Lt),
        16 => Some(Word::Le),
        17 => Some(Word::Eq),
        18 => Some(Word::Ne),
        19 => Some(Word::If),
        20 => Some(Word::Ifelse),
        21 => Some(Word::Pop),
        22 => Some(Word::Dup),
        23 => Some(Word::Exch),
        24 => Some(Word::Mset),
        25 => Some(Word::Mget),
        _ => None,
    }
}
