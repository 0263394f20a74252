ghost use Rattle.std.specs.Prelude.{◌≡◌, ◌≤◌, [], IsOk, OnOk};
ghost use Rattle.vr_base.specs.Causes.{HasCause, Rose};

use vr_base::Failed;

/// Which calls fail, by their numbers from 0 on, and how often one has failed.
#[derive(Debug, Drop)]
pub struct Failing {
    pub listed: Vec<u64>,
    pub calls: u64,
    pub faults: u64,
}

impl Failing {
    pub fn new(listed: Vec<u64>) -> Failing
        ensures { result ≡ record { listed = listed; calls = 0; faults = 0 } }
    {
        Failing {
            listed,
            calls: 0,
            faults: 0,
        }
    }

    /// Counts a fault.
    pub fn fault(&mut self) -> Failed
        ensures listed { self.new.listed ≡ self.old.listed }
        ensures later { self.old.faults ≤ self.new.faults }
        ensures rose { Rose self.old.faults self.new.faults }
    {
        self.faults = self.faults.saturating_add(1);
        Failed
    }

    /// Counts a call, which fails where it is listed.
    pub fn call(&mut self) -> Result<(), Failed>
        ensures listed { self.new.listed ≡ self.old.listed }
        ensures cause { HasCause self.old.faults self.new.faults result }
        ensures same { OnOk result (self.new.faults ≡ self.old.faults) }
        ensures sound { self.old.listed.items ≡ [] → IsOk result }
    {
        let number = self.calls;
        self.calls = number.saturating_add(1);
        if self.listed.contains(&number) {
            return Err(self.fault());
        }
        Ok(())
    }
}
