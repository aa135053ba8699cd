//! Which changes are listed.
ghost use Rattle.std.specs.Prelude.{◌≡◌};
ghost use Rattle.kt_memrowset.specs.Times.{in_times};

/// The times of the changes that are listed.
#[derive(Clone, Copy)]
pub enum Times {
    /// At or below this one.
    UpTo(u64),
    /// Above this one.
    Above(u64),
}

impl Times {
    /// Whether a time is one of these.
    pub fn has(self, ts: u64) -> bool
        ensures { result ≡ in_times self ts }
    {
        match self {
            Times::UpTo(time) => ts <= time,
            Times::Above(time) => time < ts,
        }
    }
}
