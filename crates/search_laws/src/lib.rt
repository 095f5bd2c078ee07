//! What a certifying branch-and-price search keeps at every moment: the growing tree and the queue of its live leaves,
//! verdicts on leaves, how a search ends, the restricted master, weights spread over blocks, loading, and the crew. The
//! definitions stand in specs/; each law is the contract of a public function with an empty body, which nobody calls.
#![tactic(auto)]

ghost use Rattle.search_laws.specs.Laws.{PlantKeeps, ShutKeeps, ForkKeeps, CountsChangeByOne, MiddleTakesABit, StaysShallow, SearchKeeps, LeastBoundIsThere, SearchIsRight, ReadOffIsValid, ReadOffIsCertified, VerdictsKeep, EventsKeep, RunsKeep, CrewIsRight, GapBounds, ShortIsNone, LoadKeeps, ResumeAgrees, PartsSuffice, LiveLeavesChange, LeastByPaths, EventsTell, FreeIsTheRest, SpreadFits, DecompositionHasAll, FurtherCutsKeep, QueueKeeps};

use bp_theory::{Items, Proof};

/// A side of a fork.
#[derive(Clone, Copy)]
pub enum Side {
    Low,
    High,
}

/// What is done with a leaf: shut it with a proof, or fork it with a proof and a bound.
#[derive(Drop)]
pub enum Next {
    Shut(Proof),
    Fork {
        /// The number of the branching variable, from 0.
        var: u32,
        /// The greatest number of the variable in the low part; the high part begins one above.
        at: i64,
        /// The proof that both new leaves keep, which shows `bound` in the zone of the leaf.
        proof: Proof,
        /// A dual bound of the leaf, as a minimised cost: no point of its zone costs less. It is no lower than the
        /// bound that the leaf had, and below the incumbent's cost.
        bound: i64,
    },
}

/// A cheaper point, if one was found, and what is done with the leaf.
#[derive(Drop)]
pub struct Verdict {
    /// A feasible point, by number of variable, that costs less than the incumbent that the leaf was judged against;
    /// none where none was found.
    pub point: Option<Items<i64>>,
    /// What is done with the leaf, right against the cheaper of that incumbent and `point`.
    pub next: Next,
}

/// What a worker does: it takes a leaf, shuts or forks it by its report, or drops it.
#[derive(Clone, Copy)]
pub enum Kind {
    Take,
    Shut,
    Fork,
    Drop,
}

/// A column of a restricted master: its class, its cost and its activities in master rows.
#[derive(Drop)]
pub struct Column {
    /// The number of its class of identical blocks, from 0.
    pub class: u32,
    /// The cost of its point, not scaled, without the constant of the objective.
    pub cost: i64,
    /// Master rows, by number from 0, with the activities of the point in them; a row that isn't listed has 0.
    pub acts: Items<(u32, i64)>,
}

/// A worker with what it does.
#[derive(Clone, Copy)]
pub struct Event {
    /// The number of the worker, from 0.
    pub worker: u32,
    /// What it does at this moment; `Shut` and `Fork` are reports on the leaf that it holds.
    pub kind: Kind,
}

/// A column that an answer uses: its class, its weight and its point.
#[derive(Drop)]
pub struct UsedColumn {
    /// The number of its class of identical blocks, from 0.
    pub class: u32,
    /// In units of 2^-20: at 1,048,576 one block of the class gets the point.
    pub weight: i64,
    /// A point of the class's first block, by place among the block's copies.
    pub point: Items<i64>,
}

/// What a worker holds: the path of a live leaf, and the best cost that it was given.
#[derive(Drop)]
pub struct Holding {
    /// The sides taken from the root down to the leaf.
    pub path: Items<Side>,
    /// The incumbent's cost, minimised, when the worker took the leaf; none where there was no incumbent.
    pub given: Option<i64>,
}

/// A planted tree has its facts where its bound is that of the plain proof.
pub fn plant_keeps()
    ensures { PlantKeeps }
{}

/// A live leaf that is shut with a sound proof keeps the facts.
pub fn shut_keeps()
    ensures { ShutKeeps }
{}

/// A live leaf that is forked soundly, with a sound proof that holds in its zone for a bound, keeps the facts.
pub fn fork_keeps()
    ensures { ForkKeeps }
{}

/// A live leaf that is shut or forked adds one step, and takes one live leaf away or adds one.
pub fn counts_change_by_one()
    ensures { CountsChangeByOne }
{}

/// A split at the middle takes at least one bit from the zones of both parts, and no sound split adds one.
pub fn middle_takes_a_bit()
    ensures { MiddleTakesABit }
{}

/// A tree that is planted, shut, or forked in time is no deeper than its limits allow.
pub fn stays_shallow()
    ensures { StaysShallow }
{}

/// The facts of a search are there when it begins, and stay when a leaf is shut or forked and when a cheaper point is
/// found.
pub fn search_keeps()
    ensures { SearchKeeps }
{}

/// While a leaf is live there is exactly one least of the live bounds.
pub fn least_bound_is_there()
    ensures { LeastBoundIsThere }
{}

/// Where no leaf is live the kept point is best, or nothing is feasible; at every moment no feasible point costs less
/// than the remaining bound.
pub fn search_is_right()
    ensures { SearchIsRight }
{}

/// The certificate that is read off the tree is valid: at the end for the best value or for none, and at every moment
/// for the remaining bound.
pub fn read_off_is_valid()
    ensures { ReadOffIsValid }
{}

/// The same for a decomposition and cuts: the certificate is valid for them, and its claim is true.
pub fn read_off_is_certified()
    ensures { ReadOffIsCertified }
{}

/// A verdict that is right for a best cost no cheaper than that of now keeps the facts of a search and adds one step.
pub fn verdicts_keep()
    ensures { VerdictsKeep }
{}

/// Each event keeps the facts of a crew; a report adds one step, and to take or drop a leaf changes neither the tree
/// nor the best point.
pub fn events_keep()
    ensures { EventsKeep }
{}

/// Every run keeps the facts of a crew, and each point of the root zone lies in exactly one leaf.
pub fn runs_keep()
    ensures { RunsKeep }
{}

/// At every moment of every run: where no leaf is live the best point is best, or nothing is feasible, and the
/// certificate for it is valid; else the one for the remaining bound is.
pub fn crew_is_right()
    ensures { CrewIsRight }
{}

/// Weights that fit cost no less than an answer's but for the gap, whatever the multipliers, as long as their signs
/// fit.
pub fn gap_bounds()
    ensures { GapBounds }
{}

/// Nothing is short exactly where the weights fit.
pub fn short_is_none()
    ensures { ShortIsNone }
{}

/// A valid certificate can be loaded in one way, and the loaded tree has the facts of a search where it is shallow.
pub fn load_keeps()
    ensures { LoadKeeps }
{}

/// A run that is stopped, written, loaded and ended by another run claims what a run that is not stopped claims.
pub fn resume_agrees()
    ensures { ResumeAgrees }
{}

/// Each number has its parts 1, 2, 4, .. and a rest in one way: they add up to it, and some of them to each number up
/// to it.
pub fn parts_suffice()
    ensures { PartsSuffice }
{}

/// Which paths have a live leaf, and in which zone, once a live leaf is shut or forked.
pub fn live_leaves_change()
    ensures { LiveLeavesChange }
{}

/// The least of the live bounds is one that a live leaf keeps, and no live leaf keeps a lower one.
pub fn least_by_paths()
    ensures { LeastByPaths }
{}

/// The list of the events of a run tells the steps, how many leaves are live and which workers hold one.
pub fn events_tell()
    ensures { EventsTell }
{}

/// The live leaves are those that are held, each by one worker, and the free ones; one that is free can be taken.
pub fn free_is_the_rest()
    ensures { FreeIsTheRest }
{}

/// Whole weights that meet the program's rows spread to a feasible point of their cost.
pub fn spread_fits()
    ensures { SpreadFits }
{}

/// The blocking of a decomposition has each row and each variable of the program.
pub fn decomposition_has_all()
    ensures { DecompositionHasAll }
{}

/// Further cuts change no bound of a proof that fits without them, and so keep the facts of a search.
pub fn further_cuts_keep()
    ensures { FurtherCutsKeep }
{}

/// The queue is kept when a tree is planted, and when a leaf is shut or forked; the bound of its first entry is the
/// least of the live bounds.
pub fn queue_keeps()
    ensures { QueueKeeps }
{}
