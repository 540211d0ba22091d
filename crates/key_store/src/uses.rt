// Counters: how many use each id of a list.
ghost use Rattle.std.specs.Prelude.{◌≡◌, ◌+◌, ◌-◌, ◌^◌, ◌==◌, map, min, unwrap_or, if◌then◌else◌};
ghost use Rattle.encryption_roots.specs.ById.{IsRisingById, at_id};

use encryption_roots::at_id;

/// How many use an id: none where it has no counter.
pub(crate) fn uses_of(counts: &[(u32, u32)], id: u32) -> u32
    requires { IsRisingById counts.now }
    ensures { result ≡ unwrap_or (at_id id counts.now) 0 }
{
    match at_id(counts, id) {
        None => 0,
        Some(count) => *count,
    }
}

/// Counts one use more of an id that has a counter.
pub(crate) fn add_use(counts: &mut [(u32, u32)], id: u32)
    ensures { counts.new
        ≡ map (λ entry. (entry.0, if entry.0 == id then min (entry.1 + 1) (2 ^ 32 - 1) else entry.1)) counts.old }
{
    for entry in counts.iter_mut() {
        *entry = with_use(id, *entry);
    }
}

fn with_use(id: u32, entry: (u32, u32)) -> (u32, u32)
    ensures { result ≡ (entry.0, if entry.0 == id then min (entry.1 + 1) (2 ^ 32 - 1) else entry.1) }
{
    let (other, count) = entry;
    if other == id {
        (other, count.saturating_add(1))
    } else {
        entry
    }
}

/// Counts one use less of an id.
pub(crate) fn take_use(counts: &mut [(u32, u32)], id: u32)
    ensures { counts.new ≡ map (λ entry. (entry.0, if entry.0 == id then entry.1 - 1 else entry.1)) counts.old }
{
    for entry in counts.iter_mut() {
        *entry = without_use(id, *entry);
    }
}

fn without_use(id: u32, entry: (u32, u32)) -> (u32, u32)
    ensures { result ≡ (entry.0, if entry.0 == id then entry.1 - 1 else entry.1) }
{
    let (other, count) = entry;
    if other == id {
        (other, count.saturating_sub(1))
    } else {
        entry
    }
}
