// Which heads were cloned from a snapshot, as the log tells it.
ghost use Rattle.std.specs.Prelude.{◌≡◌};
ghost use Rattle.std.specs.List.{list_any};
ghost use Rattle.std.specs.Option.{option_copied, option_eq};
ghost use Rattle.std.specs.Str.{bytes_eq};
ghost use Rattle.family_log.specs.Snapshots.{clones, same_spot};

use crate::entry::{LogEntry, Spot};
use crate::head::{Head, head_of};
use dataset_tree::SnapPart;

/// Whether by an entry of the log a head was cloned from the spot, and is still there.
pub fn any_clone(log: &[LogEntry], heads: &[Head], spot: &Spot) -> bool
    ensures { result ≡ list_any (clones spot.now heads.now) log.now }
{
    log.iter().any(|entry| clones(entry, heads, spot))
}

// Whether this entry is such a one.
fn clones(entry: &LogEntry, heads: &[Head], spot: &Spot) -> bool
    ensures { result ≡ clones spot.now heads.now entry.now }
{
    match entry {
        LogEntry::Clone { from, head } => same_spot(from, spot) && head_of(heads, *head).is_some(),
        _ => false,
    }
}

fn same_spot(a: &Spot, b: &Spot) -> bool
    ensures { result ≡ same_spot a.now b.now }
{
    a.head == b.head && same_snap(&a.snap, &b.snap)
}

fn same_snap(a: &Option<SnapPart>, b: &Option<SnapPart>) -> bool
    ensures { result ≡ option_eq bytes_eq a.now b.now }
{
    match (a, b) {
        (Some(mine), Some(others)) => mine.as_bytes() == others.as_bytes(),
        (None, None) => true,
        (Some(_), None) => false,
        (None, Some(_)) => false,
    }
}
