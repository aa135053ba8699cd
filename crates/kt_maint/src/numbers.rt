//! Numbers of their type.
ghost use Rattle.std.specs.Prelude.{◌≤◌, ◌<◌, ◌+◌, ◌^◌};

// So many file numbers a turn of the store gives at most.
const TURN_FILES: u64 = 1 << 34;

// A superblock can spell file numbers below this one, and one more.
const MOST_FILES: u64 = (1 << 62) - 2;

/// The first file number that a turn may not give, by the number of its first file.
pub fn end_of_turn(next_file: u64) -> u64
    ensures few { result ≤ next_file + 2 ^ 34 }
    ensures spelled { result < 2 ^ 62 }
{
    if next_file < MOST_FILES - TURN_FILES {
        return next_file + TURN_FILES;
    }
    MOST_FILES
}

/// A number lies below the end of its type.
pub fn is_within(number: u64)
    ensures { number < 2 ^ 64 }
{
    let _ = number;
}
