//! What the items of a block are, and how wide a number is.

ghost use Rattle.std.specs.Prelude.{◌≡◌};
ghost use Rattle.kt_plain.specs.Widths.{field_len};

/// How wide a number is: a bit of one byte, or so many bytes.
#[derive(Clone, Copy, PartialEq, Eq)]
pub enum NumberWidth {
    /// Bools: the numbers 0 and 1, a byte each.
    Bit,
    One,
    Two,
    Four,
    Eight,
}

/// What the items of a block are.
#[derive(Clone, Copy, PartialEq, Eq)]
pub enum Width {
    /// Numbers of one width.
    Numbers(NumberWidth),
    /// Byte lists, with an end position of four bytes each.
    Bytes,
}

impl NumberWidth {
    /// How many bytes a number takes.
    pub fn field_len(self) -> usize
        ensures { result ≡ field_len self }
    {
        match self {
            NumberWidth::Bit | NumberWidth::One => 1,
            NumberWidth::Two => 2,
            NumberWidth::Four => 4,
            NumberWidth::Eight => 8,
        }
    }
}
