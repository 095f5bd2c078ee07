// A model whose variables and rows are found by name.
ghost use Rattle.std.specs.Prelude.{◌≡◌, slice_get, Some, Contains, IfOk, IfSome, IfNone, length};
ghost use Rattle.bp_model.specs.Named.{IsKept};

use crate::table::NameTable;
use bp_model::Model;
use std::alloc::{AllocError, Global};

/// A model with tables of its names, so that variables and rows are found by name. Contracts see the model.
pub struct IndexedModel<'a> {
    // The model.
    model: &'a Model,
    // The names of its variables.
    vars: NameTable,
    // The names of its rows.
    rows: NameTable,
}

// What goes with one is proved here once, and not again wherever one goes.
impl<'a> Drop for IndexedModel<'a> {
    fn drop(self) {
        let IndexedModel {
            model: _,
            vars: _,
            rows: _,
        } = self;
    }
}

impl<'a> std::marker::Model for IndexedModel<'a> {
    ghost use Rattle.std.specs.Prelude.{◌≡◌};
    ghost use Rattle.bp_model.specs.Named.{NamedProgram};

    ghost Value = { NamedProgram };

    ghost view = { λ m. m.model.now };

    ghost invariant = { λ m. (m.vars ≡ m.model.now.names) × (m.rows ≡ m.model.now.row_names) };
}

impl<'a> IndexedModel<'a> {
    /// A model with tables of its names.
    pub fn of(alloc: Global, model: &'a Model) -> Result<IndexedModel<'a>, AllocError>
        ensures { IfOk result (λ indexed. indexed ≡ model.now) }
    {
        let vars = NameTable::of(alloc, model.names())?;
        let rows = NameTable::of(alloc, model.row_names())?;
        Ok(IndexedModel { model, vars, rows })
    }

    /// How many rows there are.
    pub fn rows(&self) -> u32
        ensures rows { result ≡ length self.now.program.rows }
        ensures kept { IsKept self.now }
    {
        self.model.rows()
    }

    /// The variable of a name, where there is one.
    pub fn var_of(&self, name: &str) -> Option<u32>
        ensures found { IfSome result (λ var. slice_get self.now.names var ≡ Some name.now) }
        ensures absent { IfNone result (¬ (Contains self.now.names name.now)) }
    {
        self.vars.place_of(name)
    }

    /// The row of a name, where there is one.
    pub fn row_of(&self, name: &str) -> Option<u32>
        ensures found { IfSome result (λ row. slice_get self.now.row_names row ≡ Some name.now) }
        ensures absent { IfNone result (¬ (Contains self.now.row_names name.now)) }
    {
        self.rows.place_of(name)
    }
}
