// Whether values are the same, where a contract compares them.
ghost use Rattle.std.specs.Prelude.{◌≡◌, ◌↔◌, IsTrue};

use dataset_tree::SnapPart;

/// Values of which it can be told whether they are the same.
pub trait Same {
    fn same(&self, other: &Self) -> bool
        ensures { IsTrue result ↔ (self.now ≡ other.now) };
}

impl Same for SnapPart {
    fn same(&self, other: &SnapPart) -> bool {
        self.as_bytes() == other.as_bytes()
    }
}

/// Whether two lists have the same items.
pub fn same_items<T: Same>(a: &[T], b: &[T]) -> bool
    ensures { IsTrue result ↔ (a.now ≡ b.now) }
{
    if a.len() != b.len() {
        return false;
    }
    'items: for at in 0..a.len() {
        if !a[at].same(&b[at]) {
            return false;
        }
    }
    true
}
