// The splits above the node that comes next, and its place.
ghost use Rattle.std.specs.Prelude.{◌≡◌, true, IfOk, OnOk, List};
ghost use Rattle.bp_theory.specs.Trees.{Tree};
ghost use Rattle.cert_walk.specs.Turns.{Turn, zone_of, turns_behind};
ghost use Rattle.cert_walk.specs.Paths.{AreForksOf, IsPathIn, GoesOn};

use block_program::Blocked;
use bp_theory::Span;
use cert_line_check::{NodePlace, back, to_high};
use cert_text::SplitPlace;
use std::alloc::AllocError;

// A split above the node that comes next, with the span that its variable had: the node is in its low or its high part.
#[derive(Clone, Copy)]
pub struct Fork {
    // The variable and the number behind which its span is split.
    pub place: SplitPlace,
    // The span of the variable above the split, which is put back where the walk leaves the high part.
    pub span: Span,
    // Whether the node is in the high part.
    pub is_high: bool,
}

// The place of the node that comes next, and the splits above it, the nearest last.
#[derive(Drop)]
pub struct Path {
    // The node's zone, the number of its line, and the visits that are left.
    pub place: NodePlace,
    // The splits above the node; none above the root.
    pub forks: Vec<Fork>,
}

// The place behind a leaf: that of the nearest high part that is still to come, or, where none is, the root's.
pub fn go_on(b: &Blocked, path: Path) -> Result<Path, AllocError>
    requires { IsPathIn b.now.named.program.spans path }
    ensures path { IfOk result (IsPathIn b.now.named.program.spans) }
    ensures line { IfOk result (λ now. now.place.line ≡ path.place.line) }
    ensures left { IfOk result (λ now. now.place.left ≡ path.place.left) }
    ensures moved { IfOk result (λ now. (ts : List Turn) (t : Tree) →
        AreForksOf b.now.named.program.spans path.forks.items ts →
        path.place.zone ≡ zone_of b.now.named.program.spans ts →
        GoesOn b.now.named.program.spans ts t now) }
{
    // For the proof alone: the root's zone is that of `b`.
    let _model = b.model();
    let mut place = path.place;
    let mut forks = path.forks;
    while let Some(fork) = forks.pop() {
        if !fork.is_high {
            forks.push(high_fork(&fork))?;
            let place = to_high(place, fork.place.var, &fork.span, &fork.place.at);
            return Ok(Path { place, forks });
        }
        place = back(place, fork.place.var, &fork.span);
    }
    Ok(Path { place, forks })
}

// The same split where the node is in its high part.
fn high_fork(fork: &Fork) -> Fork
    ensures { result ≡ record fork.now { is_high = true } }
{
    Fork {
        place: fork.place,
        span: fork.span,
        is_high: true,
    }
}
