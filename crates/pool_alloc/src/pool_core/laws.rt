//! Laws of the pool, which do nothing.
ghost use Rattle.std.specs.Prelude.{◌≡◌, ◌≢◌, ◌+◌, ◌<◌, ◌≤◌, ℕ, List, All, length, slice_index_or, slice_set, sum_by, Some, false};
ghost use Rattle.pool_pages.specs.MakerTold.{MakerTold};
ghost use Rattle.pool_slots.specs.Parts.{part_at};
ghost use Rattle.pool_slots.specs.declared.errors.AllocError.{AllocError};
ghost use Rattle.pool_slots.specs.declared.slot_name.SlotName.{SlotName};
ghost use Rattle.pool_alloc.specs.BetweenSteps.{IsCore, FitsCore};
ghost use Rattle.pool_alloc.specs.Calls.{MayBegin, begun_call};
ghost use Rattle.pool_alloc.specs.PartFlows.{FlowsOnPart};
ghost use Rattle.pool_alloc.specs.Places.{Thing, right_to, of_units, kept_count, frame_count};
ghost use Rattle.pool_alloc.specs.PoolAndHolders.{Holding, HasSlots, AddUp, held_by, times_warm, IsPartitioned};
ghost use Rattle.pool_alloc.specs.Stepping.{Conserves, count_granted, grant_count, CanStep, StepsTo};
ghost use Rattle.pool_alloc.specs.Turns.{After};
ghost use Rattle.pool_alloc.specs.CallStages.{keys, stage_of};
ghost use Rattle.pool_alloc.specs.PartyTold.{PartyTold};
ghost use Rattle.pool_alloc.specs.StepReads.{stripe_allocator};
ghost use Rattle.pool_alloc.specs.StripesOfGrants.{KeepsToItsStripe, right_outside};
ghost use Rattle.pool_alloc.specs.GrantedRequests.{AllGoWell, BreaksNoRule, CanBeMade, IsGranted};
ghost use Rattle.pool_alloc.specs.UnhinderedRequests.{asked_by, is_for_room, IsForGrant, HasAllItNeeds};
ghost use Rattle.pool_alloc.specs.UninterruptedCalls.{IsAsking, AreSteps, HasSameCounts};
ghost use Rattle.pool_alloc.specs.declared.frame.Call.{Call};
ghost use Rattle.pool_alloc.specs.declared.frame.Outcome.{Outcome};
ghost use Rattle.pool_alloc.specs.declared.frame.Outcome.TheVariants.{Refused};

use crate::frame::Frame;
use crate::pool_core::PoolCore;
use pool_pages::Pages;
use pool_slots::{GcHeap, PoolPart};

impl<P: Pages, H: GcHeap> PoolCore<P, H> {
    /// A law, which does nothing: where some hold together all that the pool has given out, and none of them a region
    /// without its slot, the frame of each fits the pool, and no slot is with two of them. A slot that one of them has, or
    /// a queue, isn't among the warm ones.
    pub fn holders_law(&self, frame: &Frame<P, H>)
        ensures slots { HasSlots (held_by frame.now) }
        ensures fits { (holders : List Holding) (i : ℕ) (d rest : Holding) → IsPartitioned (λ h. h) self.now holders → All HasSlots holders → i < length holders → AddUp (held_by frame.now) rest (slice_index_or holders i d) → HasSlots rest → FitsCore self.now frame.now }
        ensures apart { (maker : MakerTold) (holders : List Holding) (i j : ℕ) (name : SlotName) (d : Holding) → IsCore maker self.now → IsPartitioned (λ h. h) self.now holders → i < length holders → j < length holders → i ≢ j → slice_index_or holders i d (of_units (right_to name)) + slice_index_or holders j d (of_units (right_to name)) ≤ 1 }
        ensures warm { (maker : MakerTold) (holders : List Holding) (name : SlotName) → IsCore maker self.now → IsPartitioned (λ h. h) self.now holders → 0 < kept_count (right_to name) self.now + sum_by (λ h. h (of_units (right_to name))) holders → times_warm name self.now ≡ 0 }
    {}
    /// A law, which does nothing: what the one part that a step changes gives out more, it keeps itself, or the call has it
    /// or ends with it. Where a step changes no part, the call has what it had.
    pub fn parts_law(&self, frame: &Frame<P, H>)
        ensures part { (after : After P H) (place : ℕ) (part : PoolPart P H) → Conserves self.now frame.now after → place < length self.now.parts → after.core.parts ≡ slice_set self.now.parts place part → FlowsOnPart (part_at place self.now.parts) part frame.now after }
        ensures none { (after : After P H) (t : Thing) → Conserves self.now frame.now after → after.core.parts ≡ self.now.parts → frame_count t after.frame + count_granted (grant_count t) after.outcome ≡ frame_count t frame.now }
    {}
}

impl<P: Pages, H: GcHeap> PoolCore<P, H> {
    /// A law, which does nothing: a request that is refused, with no step of another call between its first and its last,
    /// leaves every count as it was, whatever was granted to it meanwhile.
    pub fn refused_requests_change_no_count(&self, frame: &Frame<P, H>)
        ensures { (maker : MakerTold) (asks : Call P H) (before : List (After P H)) (a : After P H) (e : AllocError) → IsAsking asks → CanStep maker self.now frame.now → MayBegin maker self.now.settings self.now.plan asks frame.now → AreSteps self.now (begun_call asks frame.now) before a → a.outcome ≡ Some (Refused e) → HasSameCounts self.now a.core }
    {}
    /// A law, which does nothing: a request is never refused for room where, before its first step, nobody is in the middle of a
    /// call and enough of all that it needs is not live, and where no other call makes a step before it ends. So it is after any
    /// history, with all resets still queued.
    pub fn unhindered_requests_find_room(&self, frame: &Frame<P, H>)
        ensures { (maker : MakerTold) (asks : Call P H) (before : List (After P H)) (a : After P H) (e : AllocError) → IsForGrant asks → CanStep maker self.now frame.now → MayBegin maker self.now.settings self.now.plan asks frame.now → HasAllItNeeds self.now frame.now.stripe asks → AreSteps self.now (begun_call asks frame.now) before a → a.outcome ≡ Some (Refused e) → is_for_room e ≡ false }
    {}
    /// A law, which does nothing: a request that has all it needs, as above, is granted, or there is no memory for it, if it breaks no rule
    /// and nothing that its steps ask for fails: its limiter lets each object be made, and no call on the pages that it begins with fails,
    /// nor the making of its heap.
    pub fn unhindered_requests_are_granted(&self, frame: &Frame<P, H>)
        ensures { (maker : MakerTold) (asks : Call P H) (before : List (After P H)) (a : After P H) (o : Outcome P H) → IsForGrant asks → CanStep maker self.now frame.now → MayBegin maker self.now.settings self.now.plan asks frame.now → HasAllItNeeds self.now frame.now.stripe asks → BreaksNoRule self.now asks → CanBeMade self.now.settings (asked_by asks) → AllGoWell self.now (begun_call asks frame.now) before a → a.outcome ≡ Some o → IsGranted o }
    {}
    /// A law, which does nothing: a call has its memories from its party's stripe, and so they are where it is granted them. No step but
    /// that for a party's key changes the stripe.
    pub fn memories_lie_in_their_stripe(&self, frame: &Frame<P, H>)
        ensures { (maker : MakerTold) (old new : PartyTold) (after : After P H) → CanStep maker self.now frame.now → (stage_of frame.now ≡ keys → ⊥) → StepsTo old new self.now frame.now after → KeepsToItsStripe self.now.plan frame.now → KeepsToItsStripe self.now.plan after.frame × (count_granted (grant_count (right_outside (stripe_allocator self.now.plan frame.now.stripe))) after.outcome ≡ 0) }
    {}
}
