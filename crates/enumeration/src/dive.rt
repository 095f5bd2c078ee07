// Where a search stands: a zone within the zone to be priced, and what its rows and costs can reach there.

ghost use Rattle.std.specs.Prelude.{◌≡◌, IsTrue};
ghost use Rattle.std.specs.Bool.{OnTrue};

use bp_theory::Span;

/// Where a search stands.
#[derive(Drop)]
pub struct Dive {
    /// The span of each variable that is left.
    pub zone: Vec<Span>,
    /// The least that each row can add up to in the zone.
    pub lows: Vec<i128>,
    /// The greatest.
    pub highs: Vec<i128>,
    /// The least cost in the zone, rows aside.
    pub least: i128,
    /// The least adjusted cost in the zone.
    pub paid: i128,
    /// The least cost of a point so far.
    pub best: Option<i128>,
    /// A point of that cost.
    pub point: Vec<i64>,
}

/// How many more visits a search may make.
#[derive(Drop)]
pub struct Visits {
    /// Whether visits are counted.
    pub capped: bool,
    /// How many are left where they are counted.
    pub left: u64,
}

impl Visits {
    /// Counts a visit, and tells whether none was left.
    pub fn is_spent(&mut self) -> bool
        ensures capped { self.new.capped ≡ self.old.capped }
        ensures spent { OnTrue result (IsTrue self.old.capped) }
    {
        if !self.capped {
            return false;
        }
        if self.left == 0 {
            return true;
        }
        self.left -= 1;
        false
    }
}
