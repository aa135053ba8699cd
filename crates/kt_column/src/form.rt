//! What a column holds, and the encodings of its blocks.

ghost use Rattle.std.specs.Prelude.{◌≡◌};
ghost use Rattle.std.specs.Bool.{OnTrue, OnFalse};
ghost use Rattle.kt_column.specs.Forms as forms;

use kt_base::Kind;
use kt_plain::{NumberWidth, Width};

/// What a column holds: cells of one kind, or encoded keys.
#[derive(Clone, Copy, Debug, PartialEq, Eq)]
pub enum Form {
    Cells { kind: Kind, nullable: bool },
    Keys,
}

/// How the values of a block are written, with the number that stands in front of it.
#[derive(Clone, Copy, PartialEq, Eq)]
pub enum Encoding {
    Plain = 1,
    RunLength = 2,
    Dictionary = 3,
    Prefix = 4,
}

impl Form {
    /// How wide the values are.
    pub fn width(self) -> Width
        ensures { result ≡ forms.width self }
    {
        match self {
            Form::Cells { kind, .. } => match kind {
                Kind::Bool => Width::Numbers(NumberWidth::Bit),
                Kind::Int8 => Width::Numbers(NumberWidth::One),
                Kind::Int16 => Width::Numbers(NumberWidth::Two),
                Kind::Int32 => Width::Numbers(NumberWidth::Four),
                Kind::Int64 => Width::Numbers(NumberWidth::Eight),
                Kind::String | Kind::Binary => Width::Bytes,
            },
            Form::Keys => Width::Bytes,
        }
    }

    /// Whether a cell may be null.
    pub fn is_nullable(self) -> bool
        ensures { result ≡ forms.is_nullable self }
    {
        match self {
            Form::Cells { nullable, .. } => nullable,
            Form::Keys => false,
        }
    }

    /// The most bytes that a string, a binary or a key has.
    pub fn limit(self) -> u32
        ensures { result ≡ forms.limit self }
    {
        match self {
            Form::Cells { .. } => 65536,
            Form::Keys => 16384,
        }
    }

    /// Whether the column may use the encoding.
    pub(crate) fn may_use(self, encoding: Encoding) -> bool
        ensures yes { OnTrue result (forms.MayUse self encoding) }
        ensures no { OnFalse result (¬ forms.MayUse self encoding) }
    {
        match self {
            Form::Cells { .. } => encoding.suits(self.width()),
            Form::Keys => matches!(encoding, Encoding::Prefix),
        }
    }
}

impl Encoding {
    /// The number of the encoding.
    pub fn code(self) -> u8
        ensures { result ≡ forms.code self }
    {
        self as u8
    }

    /// Whether values of the width have such an encoding.
    fn suits(self, width: Width) -> bool
        ensures yes { OnTrue result (forms.Suits width self) }
        ensures no { OnFalse result (¬ forms.Suits width self) }
    {
        let of_bytes = matches!(width, Width::Bytes);
        match self {
            Encoding::Plain => true,
            Encoding::RunLength => !of_bytes,
            Encoding::Dictionary | Encoding::Prefix => of_bytes,
        }
    }
}
