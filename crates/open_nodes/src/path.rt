// Paths of nodes that share their beginnings: a step of a tree's path stands in memory once for all paths through it.
ghost use Rattle.std.specs.Prelude.{◌≡◌, ◌++◌, ◌∷◌, [], ◌↔◌, ◌<◌, IsTrue, IfOk, IfSome, IfNone, length, reverse};
ghost use Rattle.open_nodes.specs.Paths.{sides_of, GoesThrough};
ghost use Rattle.open_nodes.specs.Queues.{LiesBelow};

use bp_theory::Items;
use search_laws::Side;
use std::alloc::{AllocError, Global};
use std::rc::Rc;

// The steps of a path from its last one up to the root.
enum Steps {
    Root,
    Low(Rc<Steps>),
    High(Rc<Steps>),
}

// They go one by one, as far as no other path has them.
impl Drop for Steps {
    fn drop(mut self) {
        loop {
            let above = match self {
                Steps::Root => return,
                Steps::Low(above) => above,
                Steps::High(above) => above,
            };
            match Rc::into_inner(above) {
                None => return,
                Some(steps) => self = steps,
            }
        }
    }
}

impl Steps {
    // The same steps once more: those above are shared.
    fn share(&self) -> Result<Steps, AllocError>
        ensures { IfOk result (λ steps. sides_of steps ≡ sides_of self.now) }
    {
        match self {
            Steps::Root => Ok(Steps::Root),
            Steps::Low(above) => {
                let above = above.clone()?;
                Ok(Steps::Low(above))
            }
            Steps::High(above) => {
                let above = above.clone()?;
                Ok(Steps::High(above))
            }
        }
    }

    // The last side, and the steps above it; none for the root.
    fn last(&self) -> Option<(Side, &Steps)>
        ensures some { IfSome result (λ k. sides_of self.now ≡ sides_of k.1.now ++ k.0 ∷ []) }
        ensures none { IfNone result (sides_of self.now ≡ []) }
    {
        match self {
            Steps::Root => None,
            Steps::Low(above) => Some((Side::Low, above.as_ref())),
            Steps::High(above) => Some((Side::High, above.as_ref())),
        }
    }
}

/// A path from the root, as the list of its sides. Cloned or longer paths share its steps.
#[derive(Drop)]
pub struct SharedPath {
    // How long it is, where that fits.
    length: u64,
    last: Steps,
}

impl std::marker::Model for SharedPath {
    ghost use Rattle.std.specs.Prelude.{List};
    ghost use Rattle.search_laws.specs.declared.Side.{Side};

    ghost Value = { List Side };

    ghost use Rattle.open_nodes.specs.Paths.{sides_of, IsLength};

    ghost view = { λ p. sides_of p.last };

    ghost invariant = { λ p. IsLength p.length (sides_of p.last) };
}

impl SharedPath {
    ghost use Rattle.std.specs.Prelude.{◌≡◌, ◌++◌, ◌∷◌, [], ◌↔◌, IsTrue, IfOk};
    ghost use Rattle.search_laws.specs.declared.Side.TheVariants.{Low, High};
    ghost use Rattle.open_nodes.specs.Queues.{LiesBelow};

    /// The path of the root: no sides.
    pub fn root() -> SharedPath
        ensures { result ≡ [] }
    {
        SharedPath {
            length: 0,
            last: Steps::Root,
        }
    }

    /// The paths of the parts of a fork that stands at this path: they share its steps.
    pub fn parts(&self, alloc: Global) -> Result<(SharedPath, SharedPath), AllocError>
        ensures low { IfOk result (λ k. k.0 ≡ self.now ++ Low ∷ []) }
        ensures high { IfOk result (λ k. k.1 ≡ self.now ++ High ∷ []) }
    {
        let steps = self.last.share()?;
        let above = Rc::new(alloc, steps)?;
        let again = above.clone()?;
        let length = self.length.wrapping_add(1);
        let low = SharedPath {
            length,
            last: Steps::Low(above),
        };
        let high = SharedPath {
            length,
            last: Steps::High(again),
        };
        Ok((low, high))
    }

    /// Its sides in a list.
    pub fn to_items(&self, alloc: Global) -> Result<Items<Side>, AllocError>
        ensures { IfOk result (λ sides. sides ≡ self.now) }
    {
        let mut sides = sides_up(alloc, &self.last)?;
        sides.reverse();
        Ok(Items::from_vec(sides))
    }

    /// Whether it has these sides.
    pub fn is(&self, path: &[Side]) -> bool
        ensures { IsTrue result ↔ (self.now ≡ path.now) }
    {
        self.length == path.len() as u64 && are_sides(&self.last, path)
    }

    /// Whether it goes through the node of a path, or is that path.
    pub fn lies_below(&self, above: &[Side]) -> bool
        ensures { IsTrue result ↔ LiesBelow above.now self.now }
    {
        lies_below(&self.last, above)
    }
}

// The sides of steps from the last to the first.
fn sides_up(alloc: Global, steps: &Steps) -> Result<Vec<Side>, AllocError>
    ensures { IfOk result (λ sides. reverse sides.items ≡ sides_of steps.now) }
{
    let mut sides = Vec::new(alloc);
    let mut here = steps;
    while let Some((side, above)) = here.last() {
        sides.push(side)?;
        here = above;
    }
    Ok(sides)
}

// Whether steps are these sides.
fn are_sides(steps: &Steps, path: &[Side]) -> bool
    ensures { IsTrue result ↔ (sides_of steps.now ≡ path.now) }
{
    let mut here = steps;
    let mut left = path;
    while let Some((side, rest)) = left.split_last() {
        match here.last() {
            Some((own, above)) if same_side(own, *side) => {
                here = above;
                left = rest;
            }
            _ => return false,
        }
    }
    here.last().is_none()
}

// Whether two sides are one.
fn same_side(side: Side, other: Side) -> bool
    ensures { IsTrue result ↔ (side ≡ other) }
{
    match (side, other) {
        (Side::Low, Side::Low) => true,
        (Side::High, Side::High) => true,
        _ => false,
    }
}

// The steps so many steps further up, or None where there are fewer.
fn up(steps: &Steps, count: usize) -> Option<&Steps>
    ensures some { IfSome result (λ above. GoesThrough steps.now above.now count) }
    ensures none { IfNone result (length (sides_of steps.now) < count) }
{
    let mut here = steps;
    for _ in 0..count {
        let Some((_, above)) = here.last() else {
            return None;
        };
        here = above;
    }
    Some(here)
}

// Whether steps go through the node of a path: the walk takes them up to where as many are left as the path has.
fn lies_below(steps: &Steps, above: &[Side]) -> bool
    ensures { IsTrue result ↔ LiesBelow above.now (sides_of steps.now) }
{
    let Some(mut ahead) = up(steps, above.len()) else {
        return false;
    };
    let mut here = steps;
    while let Some((_, next)) = ahead.last() {
        let Some((_, behind)) = here.last() else {
            return false;
        };
        ahead = next;
        here = behind;
    }
    are_sides(here, above)
}
