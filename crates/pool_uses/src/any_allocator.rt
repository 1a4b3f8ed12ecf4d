//! An instance of a module at any allocator: over a pool that threads share, or on demand.
ghost use Rattle.std.specs.Prelude.{◌<◌, length, IfSome};
ghost use Rattle.pool_alloc.specs.Held.{KeepsHeld, StaysSeat};
ghost use Rattle.pool_alloc.specs.Requests.{AreImagesOf, IsModule, IsSameRequest};

use pool_alloc::{InstanceAllocationRequest, InstanceAllocator, InstanceMemories};
use pool_index::ShardId;
use pool_limits::{ResourceLimiter, Trap};
use pool_slots::{AllocError, HeapMaker};
use std::alloc::Global;

/// Makes an instance of the request's module, which has a memory, writes bytes into its first one, and gives it back. Answers what the
/// write did, or why there was no instance. It is written and proved once, for every allocator. The seat has what it had then, and
/// nothing else.
pub fn write_at_any<R: ResourceLimiter, K: HeapMaker, A: InstanceAllocator<R, K>>(
    alloc: Global,
    allocator: &A,
    home: ShardId,
    seat: &mut A::Seat,
    request: &mut InstanceAllocationRequest<R>,
    at: u64,
    bytes: &[u8],
) -> Result<Result<(), Trap>, AllocError>
    requires fits { A.fits allocator.now seat.old }
    requires stripe { IfSome request.old.stripe (A.has_stripe allocator.now) }
    requires module { IsModule request.old.module.now }
    requires some { 0 < length request.old.module.now.memories }
    requires images { IfSome request.old.images (λ i. AreImagesOf (A.page allocator.now seat.old) request.old.module.now i.now) }
    ensures seat { StaysSeat (A.fits allocator.now) (A.page allocator.now) seat.old seat.new }
    ensures held { KeepsHeld (A.holds allocator.now) seat.old seat.new }
    ensures request { IsSameRequest request.old request.new }
{
    let mut instance = match allocator.allocate_module(alloc, home, seat, request) {
        Ok(instance) => instance,
        Err(refusal) => return Err(refusal),
    };
    let written = instance.write(alloc, 0, at, bytes);
    allocator.deallocate_module(home, seat, instance);
    Ok(written)
}
