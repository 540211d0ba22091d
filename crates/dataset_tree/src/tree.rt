// The tree of datasets.
ghost use Rattle.std.specs.Prelude.{◌≡◌, IfOk, OnOk, OnErr, ◌<◌, map, IsTrue};
ghost use Rattle.std.specs.Option.{option_copied};

use crate::kinds::Kind;
use crate::name::SetName;
use crate::refusal::{NoMemory, Refusal, Stop};
use std::alloc::Global;
use std::marker::Model;

/// The most datasets in a tree.
const MAX_ROWS: usize = 256;

/// A dataset.
#[derive(Debug, Drop)]
pub struct Row {
    /// Its id, from 1 on: greater than its parent's and its origin's.
    pub id: u32,
    /// The id of its parent, or 0 where it has none.
    pub parent: u32,
    pub name: SetName,
    pub kind: Kind,
    /// The id of the dataset that it was cloned from, or 0 where it is no clone.
    pub origin: u32,
}

impl Row {
    /// An equal row.
    pub fn copy(&self) -> Result<Row, NoMemory>
        ensures { IfOk result (λ row. row ≡ self.now) }
    {
        let name = self.name.copy()?;
        Ok(Row {
            id: self.id,
            parent: self.parent,
            name,
            kind: self.kind,
            origin: self.origin,
        })
    }
}

/// The datasets of a host in order of id: contracts see the list of rows and the last id ever given.
#[derive(Debug, Drop)]
pub struct Tree {
    rows: Vec<Row>,
    last: u32,
}

impl Model for Tree {
    ghost use Rattle.dataset_tree.specs.Tree.{Datasets, IsTree};

    ghost Value = { Datasets };

    ghost view = { λ tree. record { rows = tree.rows.items; last = tree.last } };

    ghost invariant = { λ tree. IsTree (record { rows = tree.rows.items; last = tree.last }) };
}

impl Tree {
    ghost use Rattle.dataset_tree.specs.Refusal.{Gives};
    ghost use Rattle.dataset_tree.specs.Tree.{no_datasets, new_id, with_row, IsDatasetOrNone, IsTree, id_named, row_of, is_parent, parent_in, removal, without_row};
    ghost use Rattle.dataset_tree.specs.SetName.{parent_name};

    /// A tree without datasets.
    pub fn new(alloc: Global) -> Result<Tree, NoMemory>
        ensures { IfOk result (λ tree. tree ≡ no_datasets) }
    {
        let rows = Vec::with_capacity(alloc, MAX_ROWS)?;
        Ok(Tree { rows, last: 0 })
    }

    /// Adds a dataset and gives its id, which is one more than the last ever given.
    /// `origin` is the dataset that it is cloned from, or 0.
    ///
    /// # Errors
    /// `Exists` where the name is taken, else `NoParent` where it has a parent's name that isn't there, else `Full`
    /// at 256 datasets or at the last id of all. After an `Err` the tree is as before.
    pub fn add(&mut self, name: &SetName, kind: Kind, origin: u32) -> Result<u32, Stop>
        requires { IsDatasetOrNone self.old origin }
        ensures reply { Gives result (new_id self.old name.now) }
        ensures added { OnOk result (self.new ≡ with_row self.old name.now kind origin) }
        ensures refused { OnErr result (self.new ≡ self.old) }
    {
        if self.find(name).is_some() {
            return Err(Stop::Refused(Refusal::Exists));
        }
        let Some(parent) = self.parent_id(name) else {
            return Err(Stop::Refused(Refusal::NoParent));
        };
        if self.rows.len() >= MAX_ROWS {
            return Err(Stop::Refused(Refusal::Full {
                limit: MAX_ROWS as u64,
            }));
        }
        if self.last == u32::MAX {
            return Err(Stop::Refused(Refusal::Full {
                limit: u32::MAX as u64,
            }));
        }
        let id = self.last + 1;
        let name = name.copy()?;
        self.rows.push(Row {
            id,
            parent,
            name,
            kind,
            origin,
        })?;
        self.last = id;
        Ok(id)
    }

    /// Takes out a dataset. The others stay in order, and its id is never given again.
    ///
    /// # Errors
    /// `HasChildren` exactly where it is the parent of a dataset or a dataset was cloned from it. Then the tree is as
    /// before.
    pub fn remove(&mut self, id: u32) -> Result<(), Refusal>
        requires { is_some (row_of id self.old.rows) ≡ true }
        ensures reply { result ≡ removal self.old id }
        ensures removed { OnOk result (self.new ≡ without_row self.old id) }
        ensures refused { OnErr result (self.new ≡ self.old) }
    {
        if is_needed_in(self.rows.as_slice(), id) {
            return Err(Refusal::HasChildren);
        }
        remove_row(&mut self.rows, id);
        Ok(())
    }

    /// The id of the dataset of this name.
    pub fn find(&self, name: &SetName) -> Option<u32>
        ensures { result ≡ id_named name.now self.now.rows }
    {
        id_in(self.rows.as_slice(), name.as_bytes())
    }

    /// The dataset of this id.
    pub fn row(&self, id: u32) -> Option<&Row>
        ensures row { option_copied result ≡ row_of id self.now.rows }
        ensures tree { IsTree self.now }
    {
        row_in(self.rows.as_slice(), id)
    }

    /// All datasets, in order of id.
    pub fn rows(&self) -> &[Row]
        ensures rows { result.now ≡ self.now.rows }
        ensures tree { IsTree self.now }
    {
        self.rows.as_slice()
    }

    /// Whether a dataset stands below this one.
    pub fn has_children(&self, id: u32) -> bool
        ensures { result ≡ is_parent id self.now.rows }
    {
        is_parent_in(self.rows.as_slice(), id)
    }

    /// The last id ever given, or 0.
    pub fn last(&self) -> u32
        ensures { result ≡ self.now.last }
    {
        self.last
    }

    /// The id of the dataset below which a new one of this name stands, 0 for a name of one component.
    fn parent_id(&self, name: &SetName) -> Option<u32>
        ensures { result ≡ parent_in self.now.rows (parent_name name.now) }
    {
        match name.parent() {
            None => Some(0),
            Some(parent) => id_in(self.rows.as_slice(), parent),
        }
    }
}

ghost use Rattle.std.specs.Prelude.{◌≤◌, ◌==◌, not, is_some, true, Some, length};
ghost use Rattle.std.specs.List.{All, AllPairs, AllWithin, filter};
ghost use Rattle.std.specs.Option.{option_map};
ghost use Rattle.dataset_tree.specs.SetName.{parent_name};
ghost use Rattle.dataset_tree.specs.Tree.{Datasets, IsTree, row_named, id_named as id_by_name, row_of as row_by_id, is_parent as is_a_parent, is_needed};

fn id_in(rows: &[Row], name: &[u8]) -> Option<u32>
    ensures { result ≡ id_by_name name.now rows.now }
{
    rows.iter()
        .find(|row| row.name.as_bytes() == name)
        .map(|row| row.id)
}

fn row_in(rows: &[Row], id: u32) -> Option<&Row>
    requires { AllPairs (λ earlier later. earlier.id < later.id) rows.now }
    ensures { option_copied result ≡ row_by_id id rows.now }
{
    let at = place_in(rows, id);
    if at < rows.len() && rows[at].id == id {
        return Some(&rows[at]);
    }
    None
}

/// Where the row of this id stands, or would stand.
fn place_in(rows: &[Row], id: u32) -> usize
    requires { AllPairs (λ earlier later. earlier.id < later.id) rows.now }
    ensures within { result ≤ length rows.now }
    ensures below { AllWithin (λ row. row.id < id) rows.now 0 result }
    ensures above { AllWithin (λ row. id ≤ row.id) rows.now result (length rows.now) }
{
    rows.partition_point(|row| row.id < id)
}

fn is_parent_in(rows: &[Row], id: u32) -> bool
    ensures { result ≡ is_a_parent id rows.now }
{
    rows.iter().any(|row| row.parent == id)
}

fn is_needed_in(rows: &[Row], id: u32) -> bool
    ensures { result ≡ is_needed id rows.now }
{
    rows.iter().any(|row| row.parent == id || row.origin == id)
}

/// Takes out the row of this id, if one is there.
fn remove_row(rows: &mut Vec<Row>, id: u32)
    ensures { rows.new.items ≡ filter (λ row. not (row.id == id)) rows.old.items }
{
    rows.retain(|row| row.id != id);
}

/// In a tree each dataset is found by its name, and by its id, and its parent has the name that is its own without the
/// last component: a law, which does nothing.
pub fn names_find_their_rows()
    ensures names { (t : Datasets) → IsTree t → All (λ row. row_named row.name t.rows ≡ Some row) t.rows }
    ensures ids { (t : Datasets) → IsTree t → All (λ row. row_by_id row.id t.rows ≡ Some row) t.rows }
    ensures parents { (t : Datasets) → IsTree t
        → All (λ row. option_map (λ parent. parent.name) (row_by_id row.parent t.rows) ≡ parent_name row.name) t.rows }
{}
