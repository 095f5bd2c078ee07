// The cuts of a certificate, as they come, and the program with them.
ghost use Rattle.std.specs.Prelude.{◌≡◌, ◌↔◌, ℕ, ℤ, ◌+◌, ◌≤◌, ◌<◌, ◌^◌, List, [], ◌∷◌, ◌++◌, Option, None, Some, IfOk, IsTrue};
ghost use Rattle.bp_theory.specs.Blocking.{Blocking};
ghost use Rattle.bp_theory.specs.declared.Claim as claims;
ghost use Rattle.bp_theory.specs.declared.Cut as theory;
ghost use Rattle.bp_theory.specs.declared.Span.{Span};
ghost use Rattle.block_program.specs.Blocked.{BlockedProgram};
ghost use Rattle.cert_line_check.specs.Cutting.{HasCuts};
ghost use Rattle.cert_walk.specs.Cuttings.{IsCutting, IsClosed, HoldsCuts, cuts_in, program_by};
ghost use Rattle.cert_walk.specs.Paths.{IsPathIn};
ghost use Rattle.cert_walk.specs.Walks.{WalksBelow, IsWalkIn, IsWithin};
ghost use Rattle.cert_walk.specs.declared.walk.Walk.TheVariants.{At};

use crate::path::Path;
use crate::walk::Walk;
use block_form::recut;
use block_program::Blocked;
use bp_theory::{Cut, Items, Row};
use cert_line_check::{NodePlace, Stop, judge_cut};
use round_cut::keeps_rules;
use std::alloc::{AllocError, Global};

// So many cuts may stand in front of one.
const MOST_EARLIER: usize = 255;

// The cuts that came and passed, with their rows; and the program with them, which is made before the first leaf is judged.
#[derive(Drop)]
pub struct Cutting {
    // The cuts, in order; none once the program is made, which has them then.
    pub cuts: Items<Cut>,
    // By number of the cut: its row over the program's variables; none once the program is made.
    pub rows: Items<Row>,
    // The program with the cuts; none before the first leaf, and where there is no cut.
    pub program: Option<Blocked>,
}

impl Cutting {
    // No cuts yet.
    pub fn new(alloc: Global) -> Cutting
        ensures cuts { result.cuts ≡ [] }
        ensures rows { result.rows ≡ [] }
        ensures program { result.program ≡ None }
    {
        Cutting {
            cuts: Items::new(alloc),
            rows: Items::new(alloc),
            program: None,
        }
    }

    // The cuts and the walk behind the line of a cut.
    pub fn add(
        self,
        alloc: Global,
        b: &Blocked,
        walk: Walk,
        cut: Cut,
    ) -> Result<(Cutting, Walk), AllocError>
        requires cutting { IsCutting b.now self }
        requires few { IsWithin (2 ^ 63 + 2) walk }
        ensures cutting { IfOk result (λ now. IsCutting b.now now.0) }
        ensures program { IfOk result (λ now. now.0.program ≡ self.program) }
        ensures holds { (cuts : List theory.Cut) → self.program ≡ None → HoldsCuts self cuts walk →
            IfOk result (λ now. HoldsCuts now.0 (cuts ++ cut ∷ []) now.1) }
        ensures judged { (claim : claims.Claim) (zs : List ℤ) (cuts : List theory.Cut)
            (visits : Option ℕ) (k : Blocking) → self.program ≡ None → HoldsCuts self cuts walk →
            WalksBelow b.now.named.program k claim
            (record { point = zs; dec = b.now.dec; cuts = cuts }) visits [] walk →
            IfOk result (λ now. WalksBelow b.now.named.program k claim
            (record { point = zs; dec = b.now.dec; cuts = cuts ++ cut ∷ [] }) visits [] now.1) }
        ensures inside { (root : List Span) → IsWalkIn root walk →
            IfOk result (λ now. IsWalkIn root now.1) }
        ensures line { (most : ℕ) → IsWithin most walk →
            IfOk result (λ now. IsWithin (most + 1) now.1) }
    {
        match walk {
            Walk::At(path) => self.add_at(alloc, b, path, cut),
            Walk::Ended(stop) => Ok((self, Walk::Ended(stop))),
            Walk::Misfit => Ok((self, Walk::Misfit)),
        }
    }

    // The same from a place.
    fn add_at(
        self,
        alloc: Global,
        b: &Blocked,
        path: Path,
        cut: Cut,
    ) -> Result<(Cutting, Walk), AllocError>
        requires cutting { IsCutting b.now self }
        requires few { path.place.line ≤ 2 ^ 63 + 2 }
        ensures cutting { IfOk result (λ now. IsCutting b.now now.0) }
        ensures program { IfOk result (λ now. now.0.program ≡ self.program) }
        ensures holds { (cuts : List theory.Cut) → self.program ≡ None → cuts_in self ≡ cuts →
            IfOk result (λ now. HoldsCuts now.0 (cuts ++ cut ∷ []) now.1) }
        ensures judged { (claim : claims.Claim) (zs : List ℤ) (cuts : List theory.Cut)
            (visits : Option ℕ) (k : Blocking) → self.program ≡ None → cuts_in self ≡ cuts →
            WalksBelow b.now.named.program k claim
            (record { point = zs; dec = b.now.dec; cuts = cuts }) visits [] (At path) →
            IfOk result (λ now. WalksBelow b.now.named.program k claim
            (record { point = zs; dec = b.now.dec; cuts = cuts ++ cut ∷ [] }) visits [] now.1) }
        ensures inside { (root : List Span) → IsPathIn root path →
            IfOk result (λ now. IsWalkIn root now.1) }
        ensures line { (most : ℕ) → path.place.line ≤ most →
            IfOk result (λ now. IsWithin (most + 1) now.1) }
    {
        if self.rows.len() > MOST_EARLIER {
            return Ok((self, Walk::Misfit));
        }
        if !keeps_rules(b, self.rows.as_slice(), &cut) {
            return Ok((self, Walk::Misfit));
        }
        match judge_cut(alloc, b, self.rows.as_slice(), &cut, path.place.line)? {
            Err(found) => Ok((
                self,
                Walk::Ended(Stop {
                    line: found.line,
                    fault: Some(found.kind),
                }),
            )),
            Ok(row) => Ok((self.with(cut, row)?, Walk::At(behind(path)))),
        }
    }

    // One cut more, with its row.
    fn with(self, cut: Cut, row: Row) -> Result<Cutting, AllocError>
        ensures cuts { IfOk result (λ now. now.cuts ≡ self.cuts ++ cut ∷ []) }
        ensures rows { IfOk result (λ now. now.rows ≡ self.rows ++ row ∷ []) }
        ensures program { IfOk result (λ now. now.program ≡ self.program) }
    {
        let mut cuts = self.cuts;
        let mut rows = self.rows;
        cuts.push(cut)?;
        rows.push(row)?;
        Ok(Cutting {
            cuts,
            rows,
            program: self.program,
        })
    }

    // Whether the program with the cuts is made, where there are some.
    pub fn is_closed(&self) -> bool
        ensures { IsTrue result ↔ IsClosed self.now }
    {
        match &self.program {
            Some(_) => true,
            None => self.cuts.is_empty(),
        }
    }

    // Makes the program with the cuts.
    pub fn close(self, alloc: Global, b: &Blocked) -> Result<Cutting, AllocError>
        requires { IsCutting b.now self }
        ensures cutting { IfOk result (IsCutting b.now) }
        ensures closed { IfOk result IsClosed }
        ensures same { IfOk result (λ now. cuts_in now ≡ self.cuts) }
    {
        let program = recut(alloc, b, self.cuts, self.rows.as_slice())?;
        Ok(Cutting {
            cuts: Items::new(alloc),
            rows: Items::new(alloc),
            program: Some(program),
        })
    }

    // The program that leaves are judged over.
    pub fn program<'a>(&'a self, b: &'a Blocked) -> &'a Blocked
        ensures { result.now ≡ program_by b.now self.now.program }
    {
        match &self.program {
            Some(program) => program,
            None => b,
        }
    }
}

// The place behind the line of a cut.
fn behind(path: Path) -> Path
    requires { path.place.line + 1 < 2 ^ 64 }
    ensures zone { result.place.zone ≡ path.place.zone }
    ensures line { result.place.line ≡ path.place.line + 1 }
    ensures left { result.place.left ≡ path.place.left }
    ensures forks { result.forks.items ≡ path.forks.items }
{
    let at = path.place;
    Path {
        place: NodePlace {
            zone: at.zone,
            line: at.line + 1,
            left: at.left,
        },
        forks: path.forks,
    }
}
