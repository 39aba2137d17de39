// Which calls of an object in memory fail, and how many did.
ghost use Rattle.std.specs.Prelude.{◌≡◌, ◌↔◌, IsTrue, Contains, if◌then◌else◌};
ghost use Rattle.outside_io.specs.Causes.{one_more};

// The numbers of the calls that fail, how many calls were made, and how many of them have failed.
#[derive(Drop)]
pub(crate) struct Tally {
    pub(crate) failing: Vec<u64>,
    pub(crate) calls: u64,
    pub(crate) faults: u64,
}

impl Tally {
    pub(crate) fn new(failing: Vec<u64>) -> Self
        ensures failing { result.failing.items ≡ failing.items }
        ensures calls { result.calls ≡ 0 }
        ensures faults { result.faults ≡ 0 }
    {
        Tally {
            failing,
            calls: 0,
            faults: 0,
        }
    }

    // Counts a call, and says whether it fails: where its number is listed, and a fault is counted then.
    pub(crate) fn count_call(&mut self) -> bool
        ensures listed { IsTrue result ↔ Contains self.old.failing.items self.old.calls }
        ensures same { self.new ≡ record self.old {
          calls = one_more self.old.calls;
          faults = if result then one_more self.old.faults else self.old.faults;
        } }
    {
        let listed = self.failing.contains(&self.calls);
        self.calls = self.calls.saturating_add(1);
        if listed {
            self.count_fault();
        }
        listed
    }

    // Counts a fault.
    pub(crate) fn count_fault(&mut self)
        ensures { self.new ≡ record self.old { faults = one_more self.old.faults } }
    {
        self.faults = self.faults.saturating_add(1);
    }
}
