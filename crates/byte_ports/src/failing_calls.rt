// The calls of an object in memory that are to fail.
ghost use Rattle.std.specs.Prelude.{◌↔◌, IsTrue};
ghost use Rattle.byte_ports.specs.FailingCalls.{IsNew, NextFails, CountsCall};

#[derive(Drop)]
pub(crate) struct FailingCalls {
    listed: Vec<u64>,
    calls: u64,
}

impl FailingCalls {
    // `listed` has the numbers of the calls that fail, from 1.
    pub(crate) fn new(listed: Vec<u64>) -> Self
        ensures { IsNew listed.items result }
    {
        FailingCalls { listed, calls: 0 }
    }

    // Counts a call, and says whether it is to fail.
    pub(crate) fn next_fails(&mut self) -> bool
        ensures listed { IsTrue result ↔ NextFails self.old }
        ensures counted { CountsCall self.old self.new }
    {
        self.calls = self.calls.saturating_add(1);
        self.listed.contains(&self.calls)
    }
}
