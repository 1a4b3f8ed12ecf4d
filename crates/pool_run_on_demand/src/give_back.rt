ghost use Rattle.std.specs.Prelude.{Bool, ◌≡◌, ◌<◌, ◌≤◌, length, None, Some};
ghost use Rattle.pool_run_on_demand.specs.Left.{AreLaidLive, Laying, live_left};
ghost use Rattle.pool_run_on_demand.specs.Seen.{AreLive, grants_made};
ghost use Rattle.pool_run.specs.Private.{Drops, grant_at};
ghost use Rattle.pool_run.specs.declared.reply.Reply.TheVariants.{Purged};

use crate::act::take_from;
use crate::grant::OnDemandGrant;
use crate::request::HOME;
use pool_alloc::InstanceAllocator;
use pool_limits::Unlimited;
use pool_memory::{DefaultMemoryCreator, LinearMemory};
use pool_on_demand::{OnDemandInstanceAllocator, OnDemandSeat};
use pool_pages::PageMaker;
use pool_run::{Refusal, Reply};
use pool_slots::ListedHeaps;
use pool_types::CompiledModuleId;

// Gives the grant of a command back.
pub(crate) fn give_back_on_demand<M: PageMaker>(
    allocator: &OnDemandInstanceAllocator<M, DefaultMemoryCreator>,
    seat: &mut OnDemandSeat<M>,
    live: &mut Vec<Option<OnDemandGrant<M, LinearMemory<M::Region>, M::Region>>>,
    of: usize,
) -> Reply
    ghost tells: { Bool }
    requires held { AreLive tells live.old.items }
    ensures drops { Drops (grant_at (grants_made tells live.old.items) of) (grants_made tells live.old.items) of result (grants_made tells live.new.items) }
    ensures held { AreLive tells live.new.items }
    ensures places { length live.new.items ≡ length live.old.items }
    ensures left { live_left live.new.items ≤ live_left live.old.items }
    ensures laid { (y : Laying) → AreLaidLive y live.old.items → AreLaidLive y live.new.items }
    ensures seat { seat.new ≡ seat.old }
{
    match take_from(live, of) {
        None => Reply::Refused(Refusal::NoSuchGrant),
        Some(grant) => {
            give_back(allocator, seat, grant);
            Reply::Returned
        }
    }
}

// Gives it back to the allocator.
fn give_back<M: PageMaker>(
    allocator: &OnDemandInstanceAllocator<M, DefaultMemoryCreator>,
    seat: &mut OnDemandSeat<M>,
    grant: OnDemandGrant<M, LinearMemory<M::Region>, M::Region>,
)
    ensures { seat.new ≡ seat.old }
{
    match grant {
        OnDemandGrant::Instance(instance) => {
            InstanceAllocator::<Unlimited, ListedHeaps>::deallocate_module(
                allocator, HOME, seat, instance,
            );
        }
        OnDemandGrant::Component => {}
        OnDemandGrant::Stack(lease) => {
            InstanceAllocator::<Unlimited, ListedHeaps>::deallocate_fiber_stack(
                allocator, HOME, seat, lease,
            );
        }
        OnDemandGrant::Heap(heap, memory) => {
            let _index = InstanceAllocator::<Unlimited, ListedHeaps>::deallocate_gc_heap(
                allocator, HOME, seat, heap,
            );
            InstanceAllocator::<Unlimited, ListedHeaps>::deallocate_memory(
                allocator, HOME, seat, memory,
            );
        }
    }
}

// Purges a module. No slot keeps anything of it.
pub(crate) fn purge_on_demand<M: PageMaker>(
    allocator: &OnDemandInstanceAllocator<M, DefaultMemoryCreator>,
    seat: &mut OnDemandSeat<M>,
    id: CompiledModuleId,
) -> Reply
    ensures reply { result ≡ Purged 0 }
    ensures seat { seat.new ≡ seat.old }
{
    Reply::Purged(InstanceAllocator::<Unlimited, ListedHeaps>::purge_module(
        allocator, HOME, seat, id,
    ))
}
