//! Why a script is not read.

ghost use Rattle.std.specs.Prelude.{◌≡◌};

use kt_base::NoMemory;
use thiserror::Error;

/// The first line that is refused, with the least reason that holds in it, or want of memory. Lines are numbered from
/// 1, and the whole text, where it is too long, is line 0.
#[derive(Clone, Copy, Debug, PartialEq, Eq, Error)]
pub enum ScriptNo {
    #[error("line {number} is refused for reason {reason}")]
    Line { number: u64, reason: u8 },
    #[error("out of memory")]
    Memory,
}

impl From<NoMemory> for ScriptNo {
    ghost use Rattle.kt_script.specs.declared.refusal.ScriptNo.TheVariants.{Memory};

    ghost from_gives = { λ _ e. e ≡ Memory };

    fn from(_: NoMemory) -> Self {
        ScriptNo::Memory
    }
}
