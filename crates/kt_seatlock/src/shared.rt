//! What a value in a lock tells.
ghost use Rattle.std.specs.Prelude.{◌≡◌, ℕ, List, Option, length};

/// A value that tells its trail, and for each pass number its part.
///
/// A lock moves the value twice a visit: box what is large.
pub trait Shared {
    type Entry;

    type Part;

    ghost trail: { Self → List Self.Entry };

    ghost part: { Self → ℕ → Self.Part };

    // Whose number an entry bears, if any.
    ghost owner: { Self.Entry → Option ℕ };

    /// How many entries the trail has. The type keeps it below 2^64.
    fn entries(&self) -> u64
        ensures { result ≡ length (trail self.now) };
}
