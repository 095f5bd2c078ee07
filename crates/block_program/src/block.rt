// A block of a program: variables, costs, rows, and coefficients in master rows.
use bp_theory::{Items, Row, Span};

/// A block: the copies of its variables, each with its span at the root, its cost and its coefficients in the master
/// rows, and the block's own rows, whose terms name places among the copies.
pub struct Block {
    // By place: the variable of the copy, by its number in the model; in a program in blocks they ascend.
    vars: Items<u32>,
    // By place: the variable's span at the root, as the model has it.
    spans: Items<Span>,
    // By place: the cost, minimised and not scaled; 0 at a copy that isn't the variable's first.
    costs: Items<i64>,
    // By place: the rows that proofs may name, ascending, with the copy's coefficient, which isn't 0.
    masters: Items<Items<(u32, i64)>>,
    // The rows that the decomposition gives the block, in the model's order; none in a block of a single variable.
    rows: Items<Row>,
}

// What goes with one is proved here once, and not again wherever one goes.
impl Drop for Block {
    fn drop(self) {
        let Block {
            vars: _,
            spans: _,
            costs: _,
            masters: _,
            rows: _,
        } = self;
    }
}

impl std::marker::Model for Block {
    ghost use Rattle.std.specs.Prelude.{◌≡◌, ◌<◌, ◌^◌, length};
    ghost use Rattle.block_program.specs.Blocked.{RootBlock, copies_from};

    ghost Value = { RootBlock };

    ghost view = { λ b. record {
      block = record { copies = copies_from b.vars b.costs b.masters; rows = b.rows };
      spans = b.spans;
    } };

    ghost invariant = { λ b. (length b.costs ≡ length b.vars) × (length b.masters ≡ length b.vars) × (length b.spans ≡ length b.vars) × (length b.vars < 2 ^ 32) };
}

impl Block {
    ghost use Rattle.std.specs.Prelude.{◌≡◌, ◌<◌, ◌^◌, length, map, slice_index_or};
    ghost use Rattle.bp_theory.specs.Blocking.{Copy};
    ghost use Rattle.block_program.specs.Blocked.{copies_from};

    /// The block of these variables, with their spans, costs and coefficients in master rows, and of these rows. Costs
    /// are minimised and not scaled.
    pub fn make(
        vars: Items<u32>,
        spans: Items<Span>,
        costs: Items<i64>,
        masters: Items<Items<(u32, i64)>>,
        rows: Items<Row>,
    ) -> Block
        requires costs { length costs ≡ length vars }
        requires masters { length masters ≡ length vars }
        requires spans { length spans ≡ length vars }
        requires few { length vars < 2 ^ 32 }
        ensures { result ≡ record {
          block = record {
            copies = copies_from vars costs masters;
            rows = rows;
          };
          spans = spans;
        } }
    {
        Block {
            vars,
            spans,
            costs,
            masters,
            rows,
        }
    }

    /// How many variables the block has.
    pub fn var_count(&self) -> u32
        ensures { result ≡ length self.now.block.copies }
    {
        self.vars.len() as u32
    }

    /// The variables, in order.
    pub fn vars(&self) -> &[u32]
        ensures { result.now ≡ map (λ (c : Copy). c.var) self.now.block.copies }
    {
        self.vars.as_slice()
    }

    /// The variables' spans at the root.
    pub fn spans(&self) -> &[Span]
        ensures spans { result.now ≡ self.now.spans }
        ensures each { length result.now ≡ length self.now.block.copies }
    {
        self.spans.as_slice()
    }

    /// The variables' costs, minimised and not scaled; 0 at a copy that isn't the variable's first.
    pub fn costs(&self) -> &[i64]
        ensures { result.now ≡ map (λ (c : Copy). c.cost) self.now.block.copies }
    {
        self.costs.as_slice()
    }

    /// The block's rows, whose terms name places among the block's variables.
    pub fn rows(&self) -> &[Row]
        ensures { result.now ≡ self.now.block.rows }
    {
        self.rows.as_slice()
    }

    /// The coefficients of the variable at a place in the master rows: the rows' numbers, ascending, with coefficients
    /// that aren't 0.
    pub fn master(&self, place: u32) -> &[(u32, i64)]
        requires { place < length self.now.block.copies }
        ensures { (d : Copy) → result.now ≡ (slice_index_or self.now.block.copies place d).coefs }
    {
        self.masters.as_slice()[place as usize].as_slice()
    }
}
