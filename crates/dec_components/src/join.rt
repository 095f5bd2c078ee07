// Rows that have a variable in common, tied in a forest: each row's parent is itself or an earlier row of its tree.
// Sets that are merged by the roots of trees, with paths halved: Robert E. Tarjan and Jan van Leeuwen,
// 'Worst-case analysis of set union algorithms', 1984.
ghost use Rattle.std.specs.Prelude.{◌≡◌, ◌≤◌, ◌<◌, ◌≢◌, ℕ, List, Option, None, Some, IfOk, length, slice_index, slice_index_or};
ghost use Rattle.bp_theory.specs.Program.{Program};
ghost use Rattle.bp_model.specs.Named.{IsKept};
ghost use Rattle.dec_components.specs.Joined.{HasVariable, IsOutside, Joined};
ghost use Rattle.dec_components.specs.Forest.{IsParent, AreParents, AreTied, KeepsTied, KeepsRoots, AreMarks, IsForest, HasHome, AreWithin, KeepsHomes, IsReady, IsSound, Extends, AreTiedHome, IsTied};

use bp_model::Model;
use std::alloc::{AllocError, Global};

/// Each row's parent, and for each variable the first row outside the master that has it, its home.
#[derive(Drop)]
pub struct Ties {
    /// By number of the row: an earlier row of its tree, or at the tree's first row itself.
    pub parents: Vec<u32>,
    /// By number of the variable: the first row outside the master that has it; none as long as no such row came.
    pub homes: Vec<Option<u32>>,
}

// The parent of a row's parent, which becomes its parent.
fn step_up(parents: &mut [u32], row: u32) -> u32
    requires forest { IsForest parents.old }
    requires there { row < length parents.old }
    ensures below { result ≤ row }
    ensures root { result ≡ row → slice_index parents.new row ≡ row }
    ensures roots { KeepsRoots parents.old parents.new }
    ensures forest { IsForest parents.new }
    ensures keeps { KeepsTied parents.old parents.new }
    ensures tied { AreTied parents.new row result }
    ensures sound { (p : Program) (master : List ℕ) → AreParents p master parents.old →
        AreParents p master parents.new }
    ensures joined { (p : Program) (master : List ℕ) → AreParents p master parents.old →
        IsParent p master row result }
{
    let parent = parents[row as usize];
    let above = parents[parent as usize];
    parents[row as usize] = above;
    above
}

// The first row of a row's tree.
fn root_of(parents: &mut [u32], from: u32) -> u32
    requires forest { IsForest parents.old }
    requires there { from < length parents.old }
    ensures below { result ≤ from }
    ensures root { slice_index parents.new result ≡ result }
    ensures roots { KeepsRoots parents.old parents.new }
    ensures forest { IsForest parents.new }
    ensures keeps { KeepsTied parents.old parents.new }
    ensures tied { AreTied parents.new from result }
    ensures sound { (p : Program) (master : List ℕ) → AreParents p master parents.old →
        AreParents p master parents.new }
    ensures joined { (p : Program) (master : List ℕ) → AreParents p master parents.old →
        IsParent p master from result }
{
    let mut row = from;
    'climb: loop {
        let above = step_up(parents, row);
        if above == row {
            return row;
        }
        row = above;
    }
}

// Puts two rows into one tree.
fn tie(parents: &mut [u32], one: u32, other: u32)
    requires forest { IsForest parents.old }
    requires one_there { one < length parents.old }
    requires other_there { other < length parents.old }
    ensures forest { IsForest parents.new }
    ensures keeps { KeepsTied parents.old parents.new }
    ensures tied { AreTied parents.new one other }
    ensures sound { (p : Program) (master : List ℕ) → Joined p master one other →
        AreParents p master parents.old → AreParents p master parents.new }
{
    let first = root_of(parents, one);
    let second = root_of(parents, other);
    if first < second {
        parents[second as usize] = first;
    } else {
        parents[first as usize] = second;
    }
}

// Each row as its own parent.
fn own_parents(alloc: Global, rows: u32) -> Result<Vec<u32>, AllocError>
    ensures each { IfOk result (λ parents. length parents.items ≡ rows) }
    ensures own { IfOk result (λ parents. (r : ℕ) → r < length parents.items →
        slice_index parents.items r ≡ r) }
{
    let mut parents = Vec::new(alloc);
    for row in 0..rows {
        parents.push(row)?;
    }
    Ok(parents)
}

// No home for any variable.
fn no_homes(alloc: Global, vars: u32) -> Result<Vec<Option<u32>>, AllocError>
    ensures each { IfOk result (λ homes. length homes.items ≡ vars) }
    ensures none { IfOk result (λ homes. (v : ℕ) → slice_index_or homes.items v None ≡ None) }
{
    Vec::from_elem(alloc, None, vars as usize)
}

impl Ties {
    // Each row in a tree of its own.
    fn new(alloc: Global, m: &Model) -> Result<Ties, AllocError>
        ensures ready { IfOk result (λ ties. IsReady (length m.now.program.rows)
            (length m.now.program.spans) ties.parents.items ties.homes.items) }
        ensures sound { (master : List ℕ) →
            IfOk result (λ ties. IsSound m.now.program master ties.parents.items ties.homes.items) }
    {
        let parents = own_parents(alloc, m.rows())?;
        let homes = no_homes(alloc, m.vars())?;
        Ok(Ties { parents, homes })
    }

    // Ties a row to the home of a variable that it has.
    fn tie_variable(&mut self, row: u32, var: u32)
        requires ready { IsReady (length self.old.parents.items) (length self.old.homes.items)
            self.old.parents.items self.old.homes.items }
        requires row_there { row < length self.old.parents.items }
        requires variable_there { var < length self.old.homes.items }
        ensures ready { IsReady (length self.old.parents.items) (length self.old.homes.items)
            self.new.parents.items self.new.homes.items }
        ensures extends { Extends self.old.parents.items self.old.homes.items self.new.parents.items
            self.new.homes.items }
        ensures home { HasHome self.new.parents.items self.new.homes.items row var }
        ensures sound { (p : Program) (master : List ℕ) → IsOutside p master row →
            HasVariable p row var → IsSound p master self.old.parents.items self.old.homes.items →
            IsSound p master self.new.parents.items self.new.homes.items }
    {
        match self.homes[var as usize] {
            Some(home) => tie(&mut self.parents, home, row),
            None => self.homes[var as usize] = Some(row),
        }
    }

    // Ties a row to the homes of all its variables.
    fn tie_row(&mut self, m: &Model, row: u32)
        requires kept { IsKept m.now }
        requires there { row < length m.now.program.rows }
        requires ready { IsReady (length m.now.program.rows) (length m.now.program.spans)
            self.old.parents.items self.old.homes.items }
        ensures ready { IsReady (length m.now.program.rows) (length m.now.program.spans)
            self.new.parents.items self.new.homes.items }
        ensures extends { Extends self.old.parents.items self.old.homes.items self.new.parents.items
            self.new.homes.items }
        ensures homes { (v : ℕ) → HasVariable m.now.program row v →
            HasHome self.new.parents.items self.new.homes.items row v }
        ensures sound { (master : List ℕ) → IsOutside m.now.program master row →
            IsSound m.now.program master self.old.parents.items self.old.homes.items →
            IsSound m.now.program master self.new.parents.items self.new.homes.items }
    {
        let terms = m.row(row).terms.as_slice();
        for at in 0..terms.len() {
            self.tie_variable(row, terms[at].var);
        }
    }
}

/// The forest of the rows outside the master: those that have a variable in common are in one tree.
pub fn tied_rows(alloc: Global, m: &Model, marks: &[bool]) -> Result<Vec<u32>, AllocError>
    requires kept { IsKept m.now }
    requires each { length marks.now ≡ length m.now.program.rows }
    ensures each { IfOk result (λ parents. length parents.items ≡ length m.now.program.rows) }
    ensures forest { IfOk result (λ parents. IsForest parents.items) }
    ensures tied { (master : List ℕ) → AreMarks m.now.program master marks.now →
        IfOk result (λ parents. IsTied m.now.program master parents.items) }
{
    let mut ties = Ties::new(alloc, m)?;
    for row in 0..m.rows() {
        if marks[row as usize] {
            continue;
        }
        ties.tie_row(m, row);
    }
    Ok(ties.parents)
}
