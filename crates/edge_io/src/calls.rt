// How the outside in memory counts its calls and faults.
ghost use Rattle.std.specs.Prelude.{◌≡◌, ◌≤◌, is_err, if◌then◌else◌};
ghost use Rattle.edge_io.specs.Counts.{is_listed, one_more};

use crate::Failed;

// The calls of an object in memory: which of them fail, how many there were, and how many faults.
#[derive(Drop)]
pub(crate) struct Calls {
    pub(crate) fails: Vec<u32>,
    pub(crate) made: u64,
    pub(crate) faults: u64,
}

impl Calls {
    pub(crate) fn new(fails: Vec<u32>) -> Self
        ensures fails { result.fails.items ≡ fails.items }
        ensures made { result.made ≡ 0 }
        ensures faults { result.faults ≡ 0 }
    {
        Calls {
            fails,
            made: 0,
            faults: 0,
        }
    }

    // Counts a call, and a fault where it is one of those that fail.
    pub(crate) fn count(&mut self) -> Result<(), Failed>
        ensures listed { is_err result ≡ is_listed self.old.fails.items self.old.made }
        ensures made { self.new.made ≡ one_more self.old.made }
        ensures fails { self.new.fails.items ≡ self.old.fails.items }
        ensures faults { self.new.faults ≡ (if is_err result then one_more self.old.faults else self.old.faults) }
        ensures grows { self.old.faults ≤ self.new.faults }
    {
        let made = self.made;
        self.made = made.saturating_add(1);
        if fails_at(&self.fails, made) {
            self.count_fault();
            return Err(Failed);
        }
        Ok(())
    }

    pub(crate) fn count_fault(&mut self)
        ensures faults { self.new.faults ≡ one_more self.old.faults }
        ensures grows { self.old.faults ≤ self.new.faults }
        ensures fails { self.new.fails.items ≡ self.old.fails.items }
        ensures made { self.new.made ≡ self.old.made }
    {
        self.faults = self.faults.saturating_add(1);
    }
}

// Whether the call of this number is one of those that fail.
fn fails_at(fails: &[u32], number: u64) -> bool
    ensures { result ≡ is_listed fails.now number }
{
    fails.iter().any(|&listed| u64::from(listed) == number)
}
