//! How many steps settling took.
ghost use Rattle.std.specs.Prelude.{◌≡◌};

/// The steps that were taken: one for each event.
#[derive(Drop)]
pub struct Steps {
    pub(crate) count: u64,
}

impl Steps {
    /// No step was taken.
    pub fn new() -> Steps
        ensures { result.count ≡ 0 }
    {
        Steps { count: 0 }
    }

    /// How many were taken.
    pub fn count(&self) -> u64
        ensures { result ≡ self.now.count }
    {
        self.count
    }
}
