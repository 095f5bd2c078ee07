// A crew: its tree, its best point, what its workers hold, and its events.
ghost use Rattle.std.specs.Prelude.{◌<◌};

use crate::choice::{Choice, picked};
use crate::first::first_free;
use crate::hand::{Hand, holds_of, no_hands};
use crate::steps::{add, grow_held, kind_of};
use block_program::Blocked;
use bp_search::{Kept, conclude, cost_of, keep, kept_from};
use branch_tree::{Grove, Loaded, Outcome, Turn, Verdict};
use search_laws::{Event, Kind};
use std::alloc::{AllocError, Global};

/// A crew at one moment: the tree of its search with the best point so far, what each worker holds, and the events that led
/// here. Each live leaf is free or held by one worker alone.
#[derive(Drop)]
pub struct Crew {
    // The growing tree, with the queue of all its live leaves, those that are held too.
    grove: Grove,
    // The incumbent; none as long as no feasible point is known.
    best: Option<Kept>,
    // By number of the worker: what it holds; none where it holds nothing.
    hands: Vec<Option<Hand>>,
    // How many workers hold a leaf.
    holders: usize,
    // All events so far, in order, with room for one more of each holder.
    events: Vec<Event>,
}

impl std::marker::Model for Crew {
    ghost use Rattle.crew_steps.specs.States.{CrewState, coded_crew, IsSomeCrew, HasRoom};

    ghost Value = { CrewState };

    ghost coded = { coded_crew };

    ghost use Rattle.std.specs.Vec.{vec_len, vec_capacity};

    ghost view = { λ c. record { grove = c.grove; best = c.best; hands = c.hands.items; events = c.events.items } };

    ghost invariant = { λ c. IsSomeCrew (record { grove = c.grove; best = c.best; hands = c.hands.items; events = c.events.items })
        × HasRoom c.hands.items c.holders (vec_len c.events) (vec_capacity c.events) };
}

impl Crew {
    ghost use Rattle.std.specs.Prelude.{◌≡◌, ◌≤◌, ◌<◌, ◌-◌, ◌^◌, ◌%◌, ℕ, List, length, slice_get, Some, None, IfOk, OnOk, OnErr, MatchOption};
    ghost use Rattle.bp_theory.specs.Trees.{steps};
    ghost use Rattle.block_program.specs.Blocked.{BlockedProgram};
    ghost use Rattle.search_laws.specs.declared.Side.{Side};
    ghost use Rattle.search_laws.specs.Crew.{takes, reports, drops, free_count};
    ghost use Rattle.search_laws.specs.Grove.{live_count, certificate_tree};
    ghost use Rattle.branch_tree.specs.Loads.{IsLoaded};
    ghost use Rattle.cert_text.specs.Outcomes.{IsWritable};
    ghost use Rattle.bp_search.specs.Ends.{EndsWithin, HasStopped, grove_in, point_of};
    ghost use Rattle.bp_search.specs.Searches.{kept_point};
    ghost use Rattle.crew_steps.specs.Draws.{draw_of, choices_in};
    ghost use Rattle.crew_steps.specs.Hands.{given_in};
    ghost use Rattle.crew_steps.specs.States.{IsCrewOf, IsMade, crew_of, hand_of, IsTurnOf, IsTaken, IsRight, IsEvent, dropped};

    /// A crew of so many workers over a loaded tree. No worker holds anything, and there are no events yet.
    pub fn make(alloc: Global, b: &Blocked, from: Loaded, workers: u32) -> Result<Crew, AllocError>
        requires loaded { IsLoaded b.now from }
        requires some { 1 ≤ workers }
        ensures made { IfOk result (IsMade from workers) }
        ensures kept { IfOk result (IsCrewOf b.now) }
    {
        // For the proof alone: `b` is formed.
        let _ = b.blocks();
        let Loaded { grove, best } = from;
        let best = kept_from(best);
        let hands = no_hands(alloc, workers)?;
        Ok(Crew {
            grove,
            best,
            hands,
            holders: 0,
            events: Vec::new(alloc),
        })
    }

    /// A worker that holds nothing takes a free leaf: that of least bound, and of those the one made first. It is given the
    /// best cost of this moment. Room for the event that closes this one is made too. Where memory is short nothing changes.
    pub fn take(&mut self, alloc: Global, worker: u32) -> Result<(), AllocError>
        requires known { worker < length self.old.hands }
        requires idle { hand_of self.old worker ≡ None }
        requires some_free { 0 < free_count (crew_of self.old) }
        ensures taken { OnOk result (IsTaken self.old worker self.new) }
        ensures event { (b : BlockedProgram) → IsCrewOf b self.old →
            OnOk result ((path : List Side) × IsEvent b self.old (takes worker path) self.new) }
        ensures same { OnErr result (self.new ≡ self.old) }
    {
        let turn = first_free(alloc, &self.grove, self.hands.as_slice())?;
        self.events.reserve(self.hands.len() + 1)?;
        let given = cost_of(&self.best);
        self.hands[worker as usize] = Some(Hand { turn, given });
        self.holders += 1;
        add(
            &mut self.events,
            Event {
                worker,
                kind: Kind::Take,
            },
        );
        Ok(())
    }

    /// A worker reports a verdict on the leaf that it holds, made against the best cost that it was given: the leaf is shut
    /// or forked, and a point that is cheaper than the best of now replaces it. The worker holds nothing afterwards. Where
    /// memory is short nothing changes, and the verdict is spent.
    pub fn report(
        &mut self,
        alloc: Global,
        b: &Blocked,
        worker: u32,
        verdict: Verdict,
    ) -> Result<(), AllocError>
        requires kept { IsCrewOf b.now self.old }
        requires right { IsRight b.now self.old worker verdict }
        requires few { steps (certificate_tree self.old.grove.tree) < 2 ^ 63 - 1 }
        ensures event { OnOk result (IsEvent b.now self.old (reports worker verdict) self.new) }
        ensures same { OnErr result (self.new ≡ self.old) }
    {
        let Verdict { point, next } = verdict;
        let kind = kind_of(&next);
        grow_held(
            alloc,
            b,
            &mut self.grove,
            &self.hands[worker as usize],
            next,
        )?;
        keep(b, &mut self.best, point);
        self.hands[worker as usize] = None;
        self.holders -= 1;
        add(&mut self.events, Event { worker, kind });
        Ok(())
    }

    /// A worker drops the leaf that it holds, which is free again. It takes no memory.
    pub fn drop_turn(&mut self, worker: u32)
        requires { (hand : Hand) × (hand_of self.old worker ≡ Some hand) }
        ensures dropped { self.new ≡ dropped self.old worker }
        ensures event { (b : BlockedProgram) → IsCrewOf b self.old →
            IsEvent b self.old (drops worker) self.new }
    {
        self.hands[worker as usize] = None;
        self.holders -= 1;
        add(
            &mut self.events,
            Event {
                worker,
                kind: Kind::Drop,
            },
        );
    }

    /// The leaf that a worker holds, as it was handed out. None exactly where it holds nothing.
    pub fn turn(&self, worker: u32) -> Option<&Turn>
        requires { worker < length self.now.hands }
        ensures { MatchOption result (hand_of self.now worker ≡ None)
            (λ turn. IsTurnOf (hand_of self.now worker) turn.now) }
    {
        match &self.hands[worker as usize] {
            None => None,
            Some(hand) => Some(&hand.turn),
        }
    }

    /// The best cost, minimised, that a worker was given with the leaf that it holds. None exactly where it holds
    /// nothing, or no best point was kept when it took the leaf.
    pub fn given(&self, worker: u32) -> Option<i64>
        requires { worker < length self.now.hands }
        ensures { result ≡ given_in (hand_of self.now worker) }
    {
        match &self.hands[worker as usize] {
            None => None,
            Some(hand) => hand.given,
        }
    }

    /// How many live leaves nobody holds.
    pub fn free(&self) -> u64
        ensures { result ≡ free_count (crew_of self.now) }
    {
        self.grove.live() - self.holders as u64
    }

    /// The events so far, in order.
    pub fn events(&self) -> &[Event]
        ensures { result.now ≡ self.now.events }
    {
        self.events.as_slice()
    }

    /// What is drawn of all that the workers may do, where so many drops came since the last report.
    pub fn drawn(&self, alloc: Global, drops: u32, state: u64) -> Result<Choice, AllocError>
        requires live { 0 < live_count self.now.grove.tree }
        requires some { 1 ≤ length self.now.hands }
        requires few { length self.now.hands < 2 ^ 32 }
        ensures { IfOk result (λ choice. slice_get (choices_in drops self.now)
            (draw_of state % length (choices_in drops self.now)) ≡ Some choice) }
    {
        let holds = holds_of(alloc, self.hands.as_slice())?;
        let may_take = self.free() > 0;
        let may_drop = (drops as usize) < self.hands.len();
        picked(alloc, holds.as_slice(), may_take, may_drop, state)
    }

    /// How many leaves are live.
    pub fn live(&self) -> u64
        ensures { result ≡ live_count self.now.grove.tree }
    {
        self.grove.live()
    }

    /// How many splits and shut leaves the tree has.
    pub fn count(&self) -> u64
        ensures { result ≡ steps (certificate_tree self.now.grove.tree) }
    {
        self.grove.count()
    }

    /// How a search ends whose steps are taken, or that has no live leaf, and the events that led there.
    pub fn conclude(self, b: &Blocked) -> (Outcome, Vec<Event>)
        requires { IsCrewOf b.now self }
        ensures ends { (most : ℕ) → HasStopped most self.grove.tree →
            EndsWithin b.now most result.0 }
        ensures writable { IsWritable b.now result.0 }
        ensures grove { grove_in result.0 ≡ self.grove }
        ensures point { point_of result.0 ≡ kept_point self.best }
        ensures events { result.1.items ≡ self.events }
    {
        let Crew {
            grove,
            best,
            events,
            ..
        } = self;
        (conclude(b, grove, best), events)
    }
}
