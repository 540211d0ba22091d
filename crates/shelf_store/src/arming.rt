ghost use Rattle.std.specs.Prelude.{◌≡◌, IsTrue};
ghost use Rattle.shelf_store.specs.ShelfState.{Rose, is_due, armed_after, faults_after};

/// How often a shelf failed, and in how many further calls it fails, if that is armed.
#[derive(Clone, Copy, PartialEq, Eq)]
pub struct Arming {
    pub faults: u64,
    pub armed: Option<u64>,
}

impl Arming {
    pub const NONE: Arming = Arming {
        faults: 0,
        armed: None,
    };

    /// Counts a call of `put` or `get`. True says that it is the armed one and fails.
    #[tactic(auto, unfolding(crate::specs::ShelfState::armed_after, crate::specs::ShelfState::faults_after))]
    pub fn count(&mut self) -> bool
        ensures value { result ≡ is_due self.old.armed }
        ensures faults { self.new.faults ≡ faults_after self.old.armed self.old.faults }
        ensures rose { IsTrue result → Rose self.old.faults self.new.faults }
        ensures armed { self.new.armed ≡ armed_after self.old.armed }
    {
        match self.armed {
            Some(0) => {
                self.armed = None;
                self.faults = self.faults.saturating_add(1);
                true
            }
            Some(calls) => {
                self.armed = Some(calls - 1);
                false
            }
            None => false,
        }
    }
}
