ghost use Rattle.std.specs.Prelude.{◌≡◌};
ghost use Rattle.fc_base.specs.Devices.{HasCause};

/// Counts the calls of a device in memory, and knows which of them fail.
#[derive(Drop)]
pub(crate) struct CallCounter {
    pub(crate) failing: Vec<u64>,
    pub(crate) made: u64,
    pub(crate) failed: u64,
}

impl CallCounter {
    ghost use Rattle.fc_base.specs.Calls.{calls, CountsCall};

    pub(crate) fn new(failing: Vec<u64>) -> CallCounter
        ensures { calls result ≡ record { failing = failing.items; made = 0; failed = 0 } }
    {
        CallCounter {
            failing,
            made: 0,
            failed: 0,
        }
    }

    /// Counts a call, and answers whether it is one that fails.
    pub(crate) fn begin_call(&mut self) -> bool
        ensures call { CountsCall (calls self.old) (calls self.new) result }
        ensures cause { HasCause self.old.failed self.new.failed result }
    {
        self.made = self.made.saturating_add(1);
        let fails = self.failing.contains(&self.made);
        if fails {
            self.failed = self.failed.saturating_add(1);
        }
        fails
    }
}
