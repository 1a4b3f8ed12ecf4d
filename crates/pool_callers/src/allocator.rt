//! The allocator: how it is made, its seats, and its end.
ghost use Rattle.std.specs.Prelude.{◌≡◌, ◌<◌, false, length, nat_lt, None, IfOk, IfErr, IfSome, OnOk, OnErr, MatchResult};
ghost use Rattle.pool_types.specs.SettingsRules.{first_broken_rule, keys_used};
ghost use Rattle.pool_hall.specs.Seat.{made_with, view};
ghost use Rattle.pool_hall.specs.Step.{left_with, newcomer, joined};
ghost use Rattle.pool_hall.specs.Tally.{all_portions};
ghost use Rattle.pool_slots.specs.Slabs.{layout_of, settings_slab};
ghost use Rattle.pool_alloc.specs.Closing.{AreAtHome, ArePartsOf};
ghost use Rattle.pool_alloc.specs.Made.{lists_making, fails_slots, GivesUpRegion, IsRefusedFor, CountsFault, NeedsFault, NeedsListed};
ghost use Rattle.pool_driver.specs.Ending.{HasNoted};
ghost use Rattle.pool_driver.specs.Origins.{about_of, inner_of};
ghost use Rattle.pool_driver.specs.Placed.{pool_meaning};
ghost use Rattle.pool_driver.specs.Pools.{IsMadeOpen, ClosesWith};
ghost use Rattle.pool_callers.specs.Callers.{HasNothing, IsAllocator, IsCaller, about_pool, opened};

use crate::seat::CallerSeat;
use pool_alloc::{Frame, FrameLists, Parts, slab_layout};
use pool_driver::{OpenPool, PoolHall, PoolSeat, SharedPool};
use pool_pages::{PageMaker, Pages};
use pool_slots::{GcHeap, PoolNewError, PoolPart, SlabLayout};
use pool_types::{Enabled, Offered, PageSize, PoolingAllocationConfig, Tunables};
use std::alloc::{AllocError, Global};

/// The pooling allocator. It is made to be shared by callers on many threads: each part of it lies behind a lock of its own, of which a call
/// holds one at a time. Its regions come from a maker that it was made with, and goes without later. `A` is the hall of its parts, a `PoolHall`.
#[derive(Drop)]
pub struct PoolingInstanceAllocator<A: Drop, P: Pages, H: GcHeap> {
    pub(crate) pool: SharedPool<A>,
    pub(crate) config: PoolingAllocationConfig,
    // Whether there are protection keys, so that a caller may ask for a stripe.
    pub(crate) has_keys: bool,
    // Where the slots of memories lie in one slab.
    pub(crate) layout: SlabLayout,
    // What closing needs: the lists of a frame, and room for all parts.
    pub(crate) lists: FrameLists<P>,
    pub(crate) room: Vec<PoolPart<P, H>>,
}

impl<P: Pages, H: GcHeap, M: PageMaker<Region = P>> PoolingInstanceAllocator<
    PoolHall<P, H, M>,
    P,
    H,
> {
    /// Makes the allocator, and its first seat, with all portions. All regions are made here. The refusals are those of `PoolCore::new`,
    /// with one for each rule that the configuration breaks; want of memory may be for the hall or for the seat, too.
    pub fn new(
        alloc: Global,
        config: &PoolingAllocationConfig,
        tunables: &Tunables,
        page: PageSize,
        shards: u32,
        offered: &Offered,
        maker: &mut M,
    ) -> Result<(Self, CallerSeat<PoolSeat<P, H, M>, P, H>), PoolNewError>
        requires page { page ≡ (M.told maker.old).page }
        ensures made { IfOk result (λ r. IsMadeOpen {R = P} M.told (M.told maker.old) config.now tunables.now offered.now shards (opened r.0 r.1)) }
        ensures pool { IfOk result (λ r. IsAllocator M.told r.0) }
        ensures seat { IfOk result (λ r. IsCaller M.told r.0 r.1) }
        ensures nothing { IfOk result (λ r. HasNothing (view r.1.seat)) }
        ensures portions { IfOk result (λ r. (view r.1.seat).portions ≡ all_portions) }
        ensures config { IfOk result (λ r. r.0.config ≡ config.now) }
        ensures page { IfOk result (λ r. r.0.pool.settings.page ≡ page) }
        ensures keys { IfOk result (λ r. r.0.has_keys ≡ nat_lt 0 (keys_used config.now offered.now)) }
        ensures layout { IfOk result (λ r. r.0.layout ≡ layout_of (settings_slab config.now tunables.now page offered.now)) }
        ensures rules { OnOk result (first_broken_rule config.now tunables.now page shards offered.now ≡ None) }
        ensures refused { IfErr result (IsRefusedFor (first_broken_rule config.now tunables.now page shards offered.now)) }
        ensures maker { M.told maker.new ≡ record (M.told maker.old) { behind = (M.told maker.new).behind; faults = (M.told maker.new).faults } }
        ensures borrows { M.borrows maker.new ≡ M.borrows maker.old }
        ensures faults { MatchResult result (λ _. (M.told maker.new).faults ≡ (M.told maker.old).faults) (CountsFault (GivesUpRegion P.told config.now tunables.now offered.now shards (M.told maker.old)) (M.told maker.old).faults (M.told maker.new).faults) }
        ensures listed { IfOk result (λ _. lists_making config.now (M.told maker.old).listed ≡ false) }
        ensures behind { MatchResult result (λ _. (M.told maker.new).behind ≡ (M.told maker.old).behind) (NeedsFault (GivesUpRegion P.told config.now tunables.now offered.now shards (M.told maker.old)) (lists_making config.now (M.told maker.old).listed) (M.told maker.old).behind (M.told maker.new).behind) }
        ensures planned { MatchResult result (λ _. IfSome (M.told maker.old).plan (λ plan. fails_slots page config.now tunables.now offered.now shards plan ≡ false)) (λ e. IfSome (M.told maker.old).plan (λ plan. NeedsListed (fails_slots page config.now tunables.now offered.now shards plan) e)) }
    {
        let open = match OpenPool::make(alloc, config, tunables, page, shards, offered, maker) {
            Ok(open) => open,
            Err(refusal) => return Err(refusal),
        };
        let OpenPool {
            pool,
            seat,
            lists,
            room,
        } = open;
        let frame = match Frame::new(alloc, &pool.settings, 0) {
            Ok(frame) => frame,
            Err(_) => return Err(PoolNewError::Memory),
        };
        let allocator = PoolingInstanceAllocator {
            pool,
            config: *config,
            has_keys: uses_keys(config, offered),
            layout: slab_layout(config, tunables, page, offered),
            lists,
            room,
        };
        Ok((allocator, CallerSeat { seat, frame }))
    }
}

// Whether a pool uses protection keys.
fn uses_keys(config: &PoolingAllocationConfig, offered: &Offered) -> bool
    ensures { result ≡ nat_lt 0 (keys_used config.now offered.now) }
{
    match config.memory_protection_keys {
        Enabled::No => false,
        _ => offered.keys > 0 && config.max_memory_protection_keys > 0,
    }
}

impl<P: Pages, H: GcHeap, M: PageMaker> PoolingInstanceAllocator<PoolHall<P, H, M>, P, H> {
    /// What the allocator was made with.
    pub fn config(&self) -> &PoolingAllocationConfig
        ensures { result.now ≡ self.now.config }
    {
        &self.config
    }

    /// Cuts a new seat from this one, for another caller. It has these portions and nothing else, and this seat keeps the rest. There are
    /// 65,536 portions in all; a caller who may cut seats of its own needs as many. The frame's lists are made first: where there is no
    /// memory for them, the seat is as before.
    pub fn split_seat(
        &self,
        alloc: Global,
        seat: &mut CallerSeat<PoolSeat<P, H, M>, P, H>,
        portions: u32,
    ) -> Result<CallerSeat<PoolSeat<P, H, M>, P, H>, AllocError>
        requires pool { IsAllocator M.told self.now }
        requires seat { IsCaller M.told self.now seat.old }
        requires some { 0 < portions }
        requires fewer { portions < (view seat.old.seat).portions }
        ensures seat { IsCaller M.told self.now seat.new }
        ensures given { IfOk result (IsCaller M.told self.now) }
        ensures left { OnOk result (view seat.new.seat ≡ left_with portions (view seat.old.seat)) }
        ensures frame { seat.new.frame ≡ seat.old.frame }
        ensures fresh { IfOk result (λ s. view s.seat ≡ newcomer portions (view seat.old.seat)) }
        ensures same { OnErr result (seat.new ≡ seat.old) }
    {
        let frame = Frame::new(alloc, &self.pool.settings, seat.frame.home)?;
        let cut = self.pool.hall.split(&mut seat.seat, portions);
        Ok(CallerSeat { seat: cut, frame })
    }

    /// All that the other seat has goes to this one, so that what it was granted is given back here. Takes no memory.
    pub fn join_seat(
        &self,
        seat: &mut CallerSeat<PoolSeat<P, H, M>, P, H>,
        other: CallerSeat<PoolSeat<P, H, M>, P, H>,
    )
        requires pool { IsAllocator M.told self.now }
        requires seat { IsCaller M.told self.now seat.old }
        requires other { IsCaller M.told self.now other }
        ensures seat { IsCaller M.told self.now seat.new }
        ensures frame { seat.new.frame ≡ seat.old.frame }
        ensures joined { view seat.new.seat ≡ joined (view seat.old.seat) (view other.seat) }
    {
        let CallerSeat {
            seat: spent,
            frame: _,
        } = other;
        self.pool.hall.join(&mut seat.seat, spent);
    }

    /// Ends the allocator: flushes all queues, and finds every slot free. All seats were joined to this one before, and what was granted
    /// was given back. Answers the parts that the pool was made of. Takes no memory.
    pub fn close(self, alloc: Global, seat: CallerSeat<PoolSeat<P, H, M>, P, H>) -> Parts<P, H>
        requires pool { IsAllocator M.told self }
        requires seat { IsCaller M.told self seat }
        requires portions { (view seat.seat).portions ≡ all_portions }
        requires nothing { HasNothing (view seat.seat) }
        ensures home { AreAtHome result }
        ensures parts { ArePartsOf (about_pool M.told self).maker self.pool.settings self.pool.plan result }
        ensures told { ClosesWith (pool_meaning (about_of M.told) inner_of) self.pool.hall (view seat.seat) }
        ensures noted { HasNoted (about_pool M.told self) (length (made_with self.pool.hall)) (view seat.seat) }
    {
        let PoolingInstanceAllocator {
            pool,
            config: _,
            has_keys: _,
            layout: _,
            lists,
            room,
        } = self;
        let CallerSeat { seat, frame: _ } = seat;
        let open = OpenPool {
            pool,
            seat,
            lists,
            room,
        };
        open.close(alloc)
    }
}
