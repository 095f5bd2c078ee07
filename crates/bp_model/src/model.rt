// The model: a program with names, within its limits.
use crate::limits::{check_spans, keeps_limits};
use crate::names::NameList;
use crate::parts::{ModelFault, Parts};
use crate::points::{Miss, activity, first_missed, first_outside, total};
use crate::tidy::{small, tidied_costs, tidied_rows};
use bp_theory::{Items, Limits, Row, Span, Term};
use std::alloc::Global;

/// A bounded integer program in minimised form, with the names of its variables and rows.
pub struct Model {
    // By number of the variable, each once.
    names: NameList,
    // By number of the row, each once.
    row_names: NameList,
    // By number of the variable: its bounds, both below 2^62 in size; none is empty.
    spans: Items<Span>,
    // By number of the row: terms ascend by variable without zeros, and no sum within the spans reaches 2^62 in size.
    rows: Items<Row>,
    // By ascending variable, without zeros; a variable that isn't there costs 0. Where the text maximises they are
    // negated.
    costs: Items<Term>,
    // What the objective adds to the costs of a point, negated where the text maximises.
    constant: i64,
    // Whether a value, as texts and reports have it, is a cost negated.
    maximises: bool,
    // The limits that the text was read with.
    limits: Limits,
}

// What goes with one is proved here once, and not again wherever one goes.
impl Drop for Model {
    fn drop(self) {
        let Model {
            names: _,
            row_names: _,
            spans: _,
            rows: _,
            costs: _,
            constant: _,
            maximises: _,
            limits: _,
        } = self;
    }
}

impl std::marker::Model for Model {
    ghost use Rattle.bp_model.specs.Named.{NamedProgram, IsKept};

    ghost Value = { NamedProgram };

    ghost view = { λ m. record {
      program = record { spans = m.spans; rows = m.rows; costs = m.costs; constant = m.constant; maximises = m.maximises; limits = m.limits };
      names = m.names;
      row_names = m.row_names;
    } };

    ghost invariant = { λ m. IsKept (record {
      program = record { spans = m.spans; rows = m.rows; costs = m.costs; constant = m.constant; maximises = m.maximises; limits = m.limits };
      names = m.names;
      row_names = m.row_names;
    }) };
}

impl Model {
    ghost use Rattle.std.specs.Prelude.{◌≡◌, ◌<◌, length, slice_get, Some, IfSome, IsNone, ◌↔◌, ◌≤◌, IfOk, IfErr, OnOk};
    ghost use Rattle.bp_theory.specs.Limits.{most_terms};
    ghost use Rattle.bp_theory.specs.Program.{cost, span_at, IsFeasible, IsInside};
    ghost use Rattle.bp_model.specs.Miss.{IsFirstMiss};
    ghost use Rattle.bp_model.specs.Named.{IsKept};
    ghost use Rattle.bp_model.specs.Parts.{written_terms, AreFitting, HasModelFault, Makes};
    ghost use Rattle.bp_model.specs.Tidy.{assembled, CanAssemble};

    /// The model of parts, with the terms of each variable added up. Refused are, in this order, a crossed span,
    /// too many bits, sums that may leave 62 bits (of the objective first), and what is past a limit.
    pub fn make(alloc: Global, parts: Parts) -> Result<Model, ModelFault>
        requires { AreFitting parts }
        ensures made { IfOk result (λ model. Makes parts model) }
        ensures kept { IfOk result (λ model. IsKept model) }
        ensures written { OnOk result (written_terms parts ≤ most_terms parts.limits) }
        ensures fault { IfErr result (λ fault. HasModelFault parts fault) }
    {
        check_spans(parts.limits, parts.spans.as_slice())?;
        let costs = tidied_costs(
            alloc,
            parts.costs.as_slice(),
            &parts.constant,
            parts.spans.as_slice(),
        )?;
        let rows = tidied_rows(alloc, parts.rows.as_slice(), parts.spans.as_slice())?;
        if !keeps_limits(&parts) {
            return Err(ModelFault::Limit);
        }
        Ok(Model::assembled(parts, costs, rows))
    }

    // The model of parts within their limits.
    fn assembled(parts: Parts, costs: Items<Term>, rows: Items<Row>) -> Model
        requires { CanAssemble parts costs rows }
        ensures value { result ≡ assembled parts costs rows }
        ensures kept { IsKept result }
    {
        // For the proof alone: how many names there can be.
        let _ = parts.names.len();
        let _ = parts.row_names.len();
        let constant = small(&parts.constant);
        let Parts {
            names,
            row_names,
            spans,
            maximises,
            limits,
            ..
        } = parts;
        Model {
            names,
            row_names,
            spans,
            rows,
            costs,
            constant,
            maximises,
            limits,
        }
    }

    /// How many variables there are.
    pub fn vars(&self) -> u32
        ensures vars { result ≡ length self.now.program.spans }
        ensures kept { IsKept self.now }
    {
        self.spans.len() as u32
    }

    /// How many rows there are.
    pub fn rows(&self) -> u32
        ensures rows { result ≡ length self.now.program.rows }
        ensures kept { IsKept self.now }
    {
        self.rows.len() as u32
    }

    /// The span of a variable.
    pub fn span(&self, var: u32) -> Span
        requires { var < length self.now.program.spans }
        ensures { result ≡ span_at self.now.program.spans var }
    {
        self.spans.as_slice()[var as usize]
    }

    /// The spans of all variables, in order.
    pub fn spans(&self) -> &[Span]
        ensures spans { result.now ≡ self.now.program.spans }
        ensures kept { IsKept self.now }
    {
        self.spans.as_slice()
    }

    /// A row. Its terms are in order of variables, each once and none 0.
    pub fn row(&self, row: u32) -> &Row
        requires { row < length self.now.program.rows }
        ensures { slice_get self.now.program.rows row ≡ Some result.now }
    {
        &self.rows.as_slice()[row as usize]
    }

    /// All rows, in order.
    pub fn all_rows(&self) -> &[Row]
        ensures rows { result.now ≡ self.now.program.rows }
        ensures kept { IsKept self.now }
    {
        self.rows.as_slice()
    }

    /// The name of a variable.
    pub fn name(&self, var: u32) -> &str
        requires { var < length self.now.program.spans }
        ensures { slice_get self.now.names var ≡ Some result.now }
    {
        self.names.get(var)
    }

    /// The name of a row.
    pub fn row_name(&self, row: u32) -> &str
        requires { row < length self.now.program.rows }
        ensures { slice_get self.now.row_names row ≡ Some result.now }
    {
        self.row_names.get(row)
    }

    /// The names of all variables, in order.
    pub fn names(&self) -> &NameList
        ensures { result.now ≡ self.now.names }
    {
        &self.names
    }

    /// The names of all rows, in order.
    pub fn row_names(&self) -> &NameList
        ensures { result.now ≡ self.now.row_names }
    {
        &self.row_names
    }

    /// The costs in minimised form, in order of variables, each once and none 0.
    pub fn costs(&self) -> &[Term]
        ensures { result.now ≡ self.now.program.costs }
    {
        self.costs.as_slice()
    }

    /// The constant of the objective in minimised form.
    pub fn constant(&self) -> i64
        ensures { result ≡ self.now.program.constant }
    {
        self.constant
    }

    /// Whether the text maximises.
    pub fn maximises(&self) -> bool
        ensures { result ≡ self.now.program.maximises }
    {
        self.maximises
    }

    /// The limits under which the model was read.
    pub fn limits(&self) -> Limits
        ensures { result ≡ self.now.program.limits }
    {
        self.limits
    }

    /// The first that is wrong with a point: its length, else the first variable whose number lies outside its span,
    /// else the first row that it doesn't meet. None where the point is feasible.
    pub fn misses(&self, point: &[i64]) -> Option<Miss>
        ensures miss { IfSome result (IsFirstMiss self.now.program point.now) }
        ensures feasible { IsNone result ↔ IsFeasible self.now.program point.now }
    {
        if point.len() != self.spans.len() {
            return Some(Miss::Length);
        }
        if let Some(var) = first_outside(self.spans.as_slice(), point) {
            return Some(Miss::Bound(var));
        }
        if let Some(row) = first_missed(self.rows.as_slice(), point) {
            return Some(Miss::Row(row));
        }
        None
    }

    /// The cost of a point whose numbers lie within the spans, in minimised form.
    pub fn cost(&self, point: &[i64]) -> i64
        requires { IsInside self.now.program.spans point.now }
        ensures { result ≡ cost self.now.program point.now }
    {
        let sum = activity(self.costs.as_slice(), point);
        total(&self.constant, &sum)
    }
}
