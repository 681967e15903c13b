//! When a new file begins.
ghost use Rattle.std.specs.Prelude.{◌≡◌, ◌<◌};

/// When a new file begins.
#[derive(Clone, Copy, Debug)]
pub struct Rotation {
    /// Whether one begins on each day, by UTC.
    pub daily: bool,
    /// How many bytes a file has at most.
    pub max_bytes: u64,
    pub ghost room: { 0 < max_bytes },
}

impl Rotation {
    /// No new file begins while a writer lives.
    pub const NEVER: Rotation = Rotation {
        daily: false,
        max_bytes: u64::MAX,
    };

    /// A new file begins on each day.
    pub const DAILY: Rotation = Rotation {
        daily: true,
        max_bytes: u64::MAX,
    };

    /// This rotation, with so many bytes a file at most.
    pub fn max_bytes(self, max_bytes: u64) -> Rotation
        requires { 0 < max_bytes }
        ensures daily { result.daily ≡ self.daily }
        ensures most { result.max_bytes ≡ max_bytes }
    {
        Rotation {
            daily: self.daily,
            max_bytes,
        }
    }
}
