//! The literals of a row line byte by byte: with which bytes some literal goes on.

ghost use Rattle.std.specs.Prelude.{◌≡◌, Some, None, if◌then◌else◌};
ghost use Rattle.kt_base.specs.Literals.{is_digit, is_hex, is_escaped, hex_value};
ghost use Rattle.kt_script.specs.declared.lex.Lex.TheVariants.{Start, Minus, Text, Slash, High, Pairs};
ghost use Rattle.kt_script.specs.Lex.{next, low_of, is_whole, next_in_row};

/// What the bytes of a literal were that stand before a place. From each of them some literal is reached.
#[derive(Clone, Copy)]
pub enum Lex {
    Start,
    N,
    Nu,
    Nul,
    T,
    Tr,
    Tru,
    F,
    Fa,
    Fal,
    Fals,
    Minus,
    Zero,
    Digits,
    /// Behind the x of a binary.
    X,
    /// Between the quotes of a string.
    Text,
    Slash,
    /// Behind \x.
    High,
    /// Behind \x0 or \x1.
    Low,
    /// Behind \x7: only byte 7f is spelled so.
    LowOfSeven,
    /// Between the quotes of a binary.
    Pairs,
    /// Behind the first digit of a pair.
    Pair,
    /// Nothing may follow.
    Whole,
}

pub fn is_digit(byte: u8) -> bool
    ensures { result ≡ is_digit byte }
{
    b'0' <= byte && byte <= b'9'
}

fn is_hex(byte: u8) -> bool
    ensures { result ≡ is_hex byte }
{
    is_digit(byte) || (b'a' <= byte && byte <= b'f')
}

fn is_escaped(byte: u8) -> bool
    ensures { result ≡ is_escaped byte }
{
    byte == b'"' || byte == b'\\' || byte < b' ' || byte == 127
}

fn when(is: bool, next: Lex) -> Option<Lex>
    ensures { result ≡ (if is then Some next else None) }
{
    if is { Some(next) } else { None }
}

fn first(byte: u8) -> Option<Lex>
    ensures { result ≡ next Start byte }
{
    match byte {
        b'n' => Some(Lex::N),
        b't' => Some(Lex::T),
        b'f' => Some(Lex::F),
        b'-' => Some(Lex::Minus),
        b'0' => Some(Lex::Zero),
        b'1'..=b'9' => Some(Lex::Digits),
        b'"' => Some(Lex::Text),
        b'x' => Some(Lex::X),
        _ => None,
    }
}

fn behind_minus(byte: u8) -> Option<Lex>
    ensures { result ≡ next Minus byte }
{
    when(byte != b'0' && is_digit(byte), Lex::Digits)
}

fn in_text(byte: u8) -> Option<Lex>
    ensures { result ≡ next Text byte }
{
    match byte {
        b'"' => Some(Lex::Whole),
        b'\\' => Some(Lex::Slash),
        _ => when(!is_escaped(byte), Lex::Text),
    }
}

fn behind_slash(byte: u8) -> Option<Lex>
    ensures { result ≡ next Slash byte }
{
    match byte {
        b'"' | b'\\' => Some(Lex::Text),
        _ => when(byte == b'x', Lex::High),
    }
}

fn behind_x(byte: u8) -> Option<Lex>
    ensures { result ≡ next High byte }
{
    match byte {
        b'0' | b'1' => Some(Lex::Low),
        b'7' => Some(Lex::LowOfSeven),
        _ => None,
    }
}

fn in_pairs(byte: u8) -> Option<Lex>
    ensures { result ≡ next Pairs byte }
{
    if byte == b'"' {
        Some(Lex::Whole)
    } else {
        when(is_hex(byte), Lex::Pair)
    }
}

impl Lex {
    /// What the bytes are with one byte more. None where no literal begins so.
    pub fn next(self, byte: u8) -> Option<Lex>
        ensures { result ≡ next self byte }
    {
        match self {
            Lex::Start => first(byte),
            Lex::N => when(byte == b'u', Lex::Nu),
            Lex::Nu => when(byte == b'l', Lex::Nul),
            Lex::Nul => when(byte == b'l', Lex::Whole),
            Lex::T => when(byte == b'r', Lex::Tr),
            Lex::Tr => when(byte == b'u', Lex::Tru),
            Lex::Tru => when(byte == b'e', Lex::Whole),
            Lex::F => when(byte == b'a', Lex::Fa),
            Lex::Fa => when(byte == b'l', Lex::Fal),
            Lex::Fal => when(byte == b's', Lex::Fals),
            Lex::Fals => when(byte == b'e', Lex::Whole),
            Lex::Minus => behind_minus(byte),
            Lex::Digits => when(is_digit(byte), Lex::Digits),
            Lex::X => when(byte == b'"', Lex::Pairs),
            Lex::Text => in_text(byte),
            Lex::Slash => behind_slash(byte),
            Lex::High => behind_x(byte),
            Lex::Low => when(is_hex(byte), Lex::Text),
            Lex::LowOfSeven => when(byte == b'f', Lex::Text),
            Lex::Pairs => in_pairs(byte),
            Lex::Pair => when(is_hex(byte), Lex::Pairs),
            Lex::Zero | Lex::Whole => None,
        }
    }

    /// Whether a literal may end here.
    pub fn is_whole(self) -> bool
        ensures { result ≡ is_whole self }
    {
        matches!(self, Lex::Zero | Lex::Digits | Lex::Whole)
    }

    /// The same in a row, where one space stands behind each literal but the last.
    pub fn next_in_row(self, byte: u8) -> Option<Lex>
        ensures { result ≡ next_in_row self byte }
    {
        match self.next(byte) {
            Some(next) => Some(next),
            None => when(byte == b' ' && self.is_whole(), Lex::Start),
        }
    }
}
