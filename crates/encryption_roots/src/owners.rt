// Who owns the key of a dataset, and to which family it belongs.
ghost use Rattle.std.specs.Prelude.{◌≡◌, ◌≢◌, ℕ, List, IsSome};
ghost use Rattle.std.specs.Option.{option_copied};
ghost use Rattle.dataset_tree.specs.Tree.{Datasets, row_of};
ghost use Rattle.dataset_tree.specs.declared.tree.Row.{Row as DatasetRow};
ghost use Rattle.encryption_roots.specs.declared.props.Props.{Props as RootProps};
ghost use Rattle.encryption_roots.specs.Roots.{props_of};
ghost use Rattle.encryption_roots.specs.Owners.{owner, family, next_to_owner, IsRowOf, HasNoRow, HasHeirsAsClones};

use crate::roots::Roots;
use dataset_tree::{Kind, Row, Tree};

/// The encryption root whose key wraps the dataset's master key. A root owns itself, a clone has the owner of its
/// origin, any other encrypted dataset that of its parent. `None` for a plain dataset, and where there is none.
pub fn owner_of(tree: &Tree, roots: &Roots, id: u32) -> Option<u32>
    ensures { result ≡ owner tree.now.rows roots.now id }
{
    let mut at = id;
    while let Some(row) = tree.row(at) {
        match row.kind {
            Kind::Plain => return None,
            Kind::Crypt if roots.contains(at) => return Some(at),
            Kind::Crypt => at = next_to_owner(row),
        }
    }
    None
}

/// The first dataset along the origins, by which the family is named: the dataset itself where it is no clone, and
/// where there is none of the id.
pub fn family_of(tree: &Tree, id: u32) -> u32
    ensures { result ≡ family tree.now.rows id }
{
    let mut at = id;
    while let Some(row) = tree.row(at)
        && row.origin != 0
    {
        at = row.origin;
    }
    at
}

/// Where the walk to the owner goes on: to the origin of a clone, else to the parent.
fn next_to_owner(row: &Row) -> u32
    ensures { result ≡ next_to_owner row.now }
{
    if row.origin == 0 {
        row.parent
    } else {
        row.origin
    }
}

/// The owner and the family by their equations, in every tree: a law, which does nothing.
pub fn owners_by_walking()
    // Nothing owns the key of a dataset that isn't there, or that is plain.
    ensures owner_of_none { (t : Datasets) (roots : List (ℕ × RootProps)) (id : ℕ) → HasNoRow t id
        → owner t.rows roots id ≡ None }
    ensures owner_of_plain { (t : Datasets) (roots : List (ℕ × RootProps)) (id : ℕ) (row : DatasetRow)
        → IsRowOf t id row
        → row.kind ≡ Kind.Plain → owner t.rows roots id ≡ None }
    // A root owns its own key, a clone has the owner of its origin, any other dataset that of its parent.
    ensures owner_of_root { (t : Datasets) (roots : List (ℕ × RootProps)) (id : ℕ) (row : DatasetRow) → IsRowOf t id row
        → row.kind ≡ Kind.Crypt → IsSome (props_of id roots) → owner t.rows roots id ≡ Some id }
    ensures owner_of_clone { (t : Datasets) (roots : List (ℕ × RootProps)) (id : ℕ) (row : DatasetRow)
        → IsRowOf t id row
        → row.kind ≡ Kind.Crypt → props_of id roots ≡ None → row.origin ≢ 0
        → owner t.rows roots id ≡ owner t.rows roots row.origin }
    ensures owner_of_child { (t : Datasets) (roots : List (ℕ × RootProps)) (id : ℕ) (row : DatasetRow)
        → IsRowOf t id row
        → row.kind ≡ Kind.Crypt → props_of id roots ≡ None → row.origin ≡ 0
        → owner t.rows roots id ≡ owner t.rows roots row.parent }
    // A dataset that is no clone begins a family, and a clone is of its origin's.
    ensures family_of_none { (t : Datasets) (id : ℕ) → HasNoRow t id → family t.rows id ≡ id }
    ensures family_of_first { (t : Datasets) (id : ℕ) (row : DatasetRow) → IsRowOf t id row → row.origin ≡ 0
        → family t.rows id ≡ id }
    ensures family_of_clone { (t : Datasets) (id : ℕ) (row : DatasetRow) → IsRowOf t id row → row.origin ≢ 0
        → family t.rows id ≡ family t.rows row.origin }
{}

/// Where no clone is plain or a root, the datasets of a family have one owner: a law, which does nothing.
pub fn families_have_one_owner()
    ensures of_family { (t : Datasets) (roots : List (ℕ × RootProps)) (id : ℕ) → HasHeirsAsClones t roots
        → owner t.rows roots id ≡ owner t.rows roots (family t.rows id) }
    ensures one { (t : Datasets) (roots : List (ℕ × RootProps)) (id other : ℕ) → HasHeirsAsClones t roots
        → family t.rows id ≡ family t.rows other → owner t.rows roots id ≡ owner t.rows roots other }
{}
