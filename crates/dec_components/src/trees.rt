// The blocks of the rows that master rows leave.
ghost use Rattle.std.specs.Prelude.{◌≡◌, ◌≤◌, ◌<◌, ◌+◌, ◌↔◌, [], ℕ, List, IfOk, OnOk, All, IsTrue, Contains, length};
ghost use Rattle.bp_theory.specs.Limits.{most_rows};
ghost use Rattle.bp_theory.specs.declared.Limits.TheVariants.{Large};
ghost use Rattle.bp_theory.specs.Program.{Program};
ghost use Rattle.dec_components.specs.Joined.{IsFound};
ghost use Rattle.dec_components.specs.Forest.{AreMarks, IsForest, IsTied, IsNumbered};

use std::alloc::{AllocError, Global};

/// For each row its block or the master, and the number of blocks.
#[derive(Drop)]
pub struct Places {
    /// By number of the row, of the rows so far: the block, from 0, or none for the master.
    pub places: Vec<Option<u32>>,
    /// How many blocks there are so far; they are numbered in the order of their first rows.
    pub blocks: u32,
}

/// For each of so many rows whether it is a master row.
pub fn marks_of(alloc: Global, rows: u32, master: &[u32]) -> Result<Vec<bool>, AllocError>
    requires { All (λ r. r < rows) master.now }
    ensures each { IfOk result (λ marks. length marks.items ≡ rows) }
    ensures marks { (p : Program) → length p.rows ≡ rows →
        IfOk result (λ marks. AreMarks p master.now marks.items) }
{
    let mut marks = Vec::from_elem(alloc, false, rows as usize)?;
    for row in master {
        marks[*row as usize] = true;
    }
    Ok(marks)
}

impl Places {
    // The place of the next row: the master, its parent's block, or a new block where it is its own parent.
    fn add(&mut self, parents: &[u32], is_master: bool) -> Result<(), AllocError>
        requires forest { IsForest parents.now }
        requires there { length self.old.places.items < length parents.now }
        requires few { self.old.blocks ≤ most_rows Large }
        ensures numbered { (p : Program) (master : List ℕ) →
            (IsTrue is_master ↔ Contains master (length self.old.places.items)) →
            IsTied p master parents.now →
            IsNumbered p master parents.now self.old.places.items self.old.blocks →
            OnOk result (IsNumbered p master parents.now self.new.places.items self.new.blocks) }
        ensures more { OnOk result (length self.new.places.items ≡
            length self.old.places.items + 1) }
        ensures few { OnOk result (self.new.blocks ≤ self.old.blocks + 1) }
    {
        let row = self.places.len();
        if is_master {
            self.places.push(None)?;
            return Ok(());
        }
        let parent = parents[row] as usize;
        if parent < row {
            let place = self.places[parent];
            self.places.push(place)?;
            return Ok(());
        }
        self.places.push(Some(self.blocks))?;
        self.blocks += 1;
        Ok(())
    }
}

/// The blocks of a forest's trees, numbered by their first row.
pub fn numbered(alloc: Global, parents: &[u32], marks: &[bool]) -> Result<Places, AllocError>
    requires forest { IsForest parents.now }
    requires each { length marks.now ≡ length parents.now }
    requires few { length parents.now ≤ most_rows Large }
    ensures { (p : Program) (master : List ℕ) → AreMarks p master marks.now →
        IsTied p master parents.now →
        IfOk result (λ found. IsFound p master
        (record { blocks = found.blocks; places = found.places.items; listed = [] })) }
{
    let mut found = Places {
        places: Vec::new(alloc),
        blocks: 0,
    };
    for row in 0..parents.len() {
        found.add(parents, marks[row])?;
    }
    Ok(found)
}
