// The families that a root owns, and the roots below a dataset.
ghost use Rattle.std.specs.Prelude.{◌≡◌, ◌↔◌, ◌<◌, ◌==◌, ◌&&◌, ◌||◌, ℕ, List, [], ◌∷◌, IsSome, IfOk, Some, true, false, is_some};
ghost use Rattle.std.specs.List.{All, AllPairs, Contains};
ghost use Rattle.dataset_tree.specs.Tree.{Datasets, IsTree};
ghost use Rattle.dataset_tree.specs.declared.kinds.Kind.TheVariants.{Crypt};
ghost use Rattle.dataset_tree.specs.declared.tree.Row.{Row as DatasetRow};
ghost use Rattle.encryption_roots.specs.declared.props.Props.{Props as RootProps};
ghost use Rattle.encryption_roots.specs.Roots.{props_of};
ghost use Rattle.encryption_roots.specs.Owners.{owner, IsRowOf, HasNoRow};
ghost use Rattle.encryption_roots.specs.Owned.{begins_family, is_owner, owned_families, is_below, roots_below};
ghost use Rattle.encryption_roots.specs.OwnedSample.{sample_rows, sample_roots};

use crate::owners::owner_of;
use crate::roots::Roots;
use dataset_tree::{Kind, NoMemory, Row, Tree};
use std::alloc::Global;

/// The families whose key this root owns, in order of id: each is named by its first dataset, an encrypted one that is
/// no clone. None where the dataset is no root.
pub fn owned_families(
    alloc: Global,
    tree: &Tree,
    roots: &Roots,
    root: u32,
) -> Result<Vec<u32>, NoMemory>
    ensures { IfOk result (λ families. families.items ≡ owned_families tree.now.rows roots.now root) }
{
    let mut families = Vec::new(alloc);
    for row in tree.rows() {
        if begins_family_of(tree, roots, root, row) {
            families.push(row.id)?;
        }
    }
    Ok(families)
}

/// The roots that stand at or below a dataset, in order of id.
pub fn roots_below(alloc: Global, tree: &Tree, roots: &Roots, id: u32) -> Result<Vec<u32>, NoMemory>
    ensures { IfOk result (λ below. below.items ≡ roots_below tree.now.rows roots.now id) }
{
    let mut below = Vec::new(alloc);
    for row in tree.rows() {
        if roots.contains(row.id) && is_below(tree, id, row.id) {
            below.push(row.id)?;
        }
    }
    Ok(below)
}

/// Whether the dataset of this row is the first of a family that the root owns.
fn begins_family_of(tree: &Tree, roots: &Roots, root: u32, row: &Row) -> bool
    ensures { result ≡ (begins_family row.now && is_owner root (owner tree.now.rows roots.now row.now.id)) }
{
    begins_family(row) && owner_of(tree, roots, row.id) == Some(root)
}

fn begins_family(row: &Row) -> bool
    ensures { result ≡ begins_family row.now }
{
    row.kind == Kind::Crypt && row.origin == 0
}

/// Whether the dataset `id` stands at or below `top`.
fn is_below(tree: &Tree, top: u32, id: u32) -> bool
    ensures { result ≡ is_below tree.now.rows top id }
{
    let mut at = id;
    while let Some(row) = tree.row(at) {
        if at == top {
            return true;
        }
        at = row.parent;
    }
    false
}

/// A root owns the families of the encrypted datasets that are no clones and whose owner it is; they come in order of
/// id, and no family has two owners: a law, which does nothing.
pub fn families_by_owner()
    ensures rising { (t : Datasets) (roots : List (ℕ × RootProps)) (root : ℕ) → IsTree t
        → AllPairs (λ earlier later. earlier < later) (owned_families t.rows roots root) }
    ensures member { (t : Datasets) (roots : List (ℕ × RootProps)) (root : ℕ) → IsTree t
        → All (λ row. Contains (owned_families t.rows roots root) row.id
        ↔ (row.kind ≡ Crypt) × (row.origin ≡ 0) × (owner t.rows roots row.id ≡ Some root)) t.rows }
    ensures apart { (rows : List DatasetRow) (roots : List (ℕ × RootProps)) (root other id : ℕ)
        → Contains (owned_families rows roots root) id → Contains (owned_families rows roots other) id → root ≡ other }
{}

/// The roots below a dataset come in order of id, and a dataset is among those below itself exactly where it is a root.
/// A dataset stands at or below another where it is that one, or where its parent does: a law, which does nothing.
pub fn roots_by_parents()
    ensures rising { (t : Datasets) (roots : List (ℕ × RootProps)) (top : ℕ) → IsTree t
        → AllPairs (λ earlier later. earlier < later) (roots_below t.rows roots top) }
    ensures member { (t : Datasets) (roots : List (ℕ × RootProps)) (top : ℕ) → IsTree t
        → All (λ row. Contains (roots_below t.rows roots top) row.id
        ↔ IsSome (props_of row.id roots) × (is_below t.rows top row.id ≡ true)) t.rows }
    ensures itself { (t : Datasets) (roots : List (ℕ × RootProps)) → IsTree t
        → All (λ row. Contains (roots_below t.rows roots row.id) row.id ↔ IsSome (props_of row.id roots)) t.rows }
    ensures below { (t : Datasets) (top id : ℕ) (row : DatasetRow) → IsRowOf t id row
        → is_below t.rows top id ≡ ((id == top) || is_below t.rows top row.parent) }
    ensures nowhere { (t : Datasets) (top id : ℕ) → HasNoRow t id → is_below t.rows top id ≡ false }
{}

/// Worked values: a clone is of its origin's family and no other's, and a root below a clone stands below the clone
/// alone.
pub fn values_of_owned_families()
    ensures tank { owned_families sample_rows sample_roots 1 ≡ 1 ∷ 2 ∷ [] }
    ensures child { owned_families sample_rows sample_roots 3 ≡ 3 ∷ 4 ∷ [] }
    ensures heir { owned_families sample_rows sample_roots 2 ≡ [] }
    ensures plain { owned_families sample_rows sample_roots 8 ≡ [] }
    ensures below_tank { roots_below sample_rows sample_roots 1 ≡ 1 ∷ 3 ∷ [] }
    ensures below_heir { roots_below sample_rows sample_roots 2 ≡ [] }
    ensures below_child { roots_below sample_rows sample_roots 3 ≡ 3 ∷ [] }
    ensures below_clone { roots_below sample_rows sample_roots 5 ≡ 6 ∷ [] }
    ensures nowhere { roots_below sample_rows sample_roots 0 ≡ [] }
{}
