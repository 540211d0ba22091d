// Finite maps from ids, as lists of (id, value) in rising order of id.
ghost use Rattle.std.specs.Prelude.{◌≡◌, ◌<◌, ◌≤◌, ◌==◌, not, None, length, vec_capacity, OnOk, OnErr};
ghost use Rattle.std.specs.List.{AllWithin};
ghost use Rattle.std.specs.Option.{option_copied};
ghost use Rattle.encryption_roots.specs.ById.{IsRisingById, at_id, with_id, without_id};

use dataset_tree::NoMemory;

/// The value at this id, if one is there.
pub fn at_id<X>(entries: &[(u32, X)], id: u32) -> Option<&X>
    requires { IsRisingById entries.now }
    ensures { option_copied result ≡ at_id id entries.now }
{
    let at = place_in(entries, id);
    if at < entries.len() && entries[at].0 == id {
        return Some(&entries[at].1);
    }
    None
}

/// Sets the value at this id, in place of one that is there.
///
/// # Errors
/// `NoMemory` only for a new value, where as many are there as there is room for. Then all are as before.
pub fn put_at_id<X: Drop>(entries: &mut Vec<(u32, X)>, id: u32, value: X) -> Result<(), NoMemory>
    requires { IsRisingById entries.old.items }
    ensures ok { OnOk result (entries.new.items ≡ with_id id value entries.old.items) }
    ensures new { OnErr result (at_id id entries.old.items ≡ None) }
    ensures full { OnErr result (vec_capacity entries.old ≤ length entries.old.items) }
    ensures err { OnErr result (entries.new.items ≡ entries.old.items) }
    ensures rising { IsRisingById entries.new.items }
    ensures room { vec_capacity entries.old ≤ vec_capacity entries.new }
{
    let at = place_in(entries, id);
    if at < entries.len() && entries[at].0 == id {
        entries[at] = (id, value);
        return Ok(());
    }
    entries.insert(at, (id, value))?;
    Ok(())
}

/// Takes out the value at this id, if one is there.
pub fn remove_at_id<X: Drop>(entries: &mut Vec<(u32, X)>, id: u32)
    requires { IsRisingById entries.old.items }
    ensures removed { entries.new.items ≡ without_id id entries.old.items }
    ensures rising { IsRisingById entries.new.items }
    ensures room { vec_capacity entries.old ≤ vec_capacity entries.new }
{
    entries.retain(|entry| entry.0 != id);
}

/// Where the value of this id stands, or would stand.
fn place_in<X>(entries: &[(u32, X)], id: u32) -> usize
    requires { IsRisingById entries.now }
    ensures within { result ≤ length entries.now }
    ensures below { AllWithin (λ entry. entry.0 < id) entries.now 0 result }
    ensures above { AllWithin (λ entry. id ≤ entry.0) entries.now result (length entries.now) }
{
    entries.partition_point(|entry| entry.0 < id)
}
