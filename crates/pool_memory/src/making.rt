ghost use Rattle.std.specs.Prelude.{◌≡◌, ◌^◌, ◌<◌, ◌≤◌, true, Option, None, Ok, IfOk, IfSome};
ghost use Rattle.pool_types.specs.Count.{rounded_up};
ghost use Rattle.pool_types.specs.MemoryTypes.{page_size, minimum_byte_size, refused_limits};
ghost use Rattle.pool_limits.specs.Growth.{memory_answer};
ghost use Rattle.pool_limits.specs.LimiterTold.{after_answer};
ghost use Rattle.pool_limits.specs.Exchanges.{may_grow};
ghost use Rattle.pool_images.specs.Images.{Image, start};
ghost use Rattle.pool_images.specs.Slots.{IsBegun};
ghost use Rattle.pool_memory.specs.Dynamic.{dynamic_limits};
ghost use Rattle.pool_memory.specs.Static.{CanHold};
ghost use Rattle.pool_memory.specs.Memories.{bytes_of};
ghost use Rattle.pool_memory.specs.MemoryStates.{state_of};
ghost use Rattle.pool_memory.specs.Making.{Granted, EndsWithin, minimum_asked, maximum_asked, minimum_question, limits_answer, limiter_answer, static_limiter_answer, made_within, static_answer};

use crate::local_memory::LocalMemory;
use crate::memory::Memory;
use crate::memory_error::MemoryError;
use crate::static_memory::StaticMemory;
use pool_images::MemoryImageSlot;
use pool_limits::{LimiterError, ResourceLimiter};
use pool_pages::Pages;
use pool_types::{MemoryTunables, MemoryType, Unsupported};

// The memory in the slot, or the slot with what refused it. The limiter is asked first.
pub(crate) fn make_static<P: Pages, R: ResourceLimiter>(
    ty: &MemoryType,
    tunables: &MemoryTunables,
    base_capacity: usize,
    slot: MemoryImageSlot<P>,
    limiter: &mut R,
) -> Result<Memory<(), StaticMemory<P>>, (MemoryImageSlot<P>, MemoryError)>
    requires page { ty.now.page_size_log2 < 64 }
    requires limits { refused_limits ty.now.limits ≡ None }
    requires slot { minimum_byte_size ty.now < 2 ^ 64 → CanHold (minimum_byte_size ty.now) slot }
    requires room { rounded_up slot.region.page base_capacity ≤ slot.static_size }
    ensures value { result ≡ static_answer (static_limiter_answer result) ty.now base_capacity slot }
    ensures asked { static_limiter_answer result ≡ memory_answer (R.told limiter.old).rule (static_limiter_answer result) (minimum_asked ty.now) (maximum_asked ty.now) }
    ensures limiter { R.told limiter.new ≡ after_answer (static_limiter_answer result) (R.told limiter.old) }
    ensures exchange { R.leads limiter.old (may_grow (minimum_question ty.now) (static_limiter_answer result)) limiter.new }
    ensures begun { IfOk result (λ m. (image : Option Image) → IsBegun image slot → EndsWithin (minimum_byte_size ty.now) image → IfSome (bytes_of (state_of m)) (λ bytes. bytes ≡ start image (minimum_byte_size ty.now))) }
{
    let limits = limit_new(ty, limiter);
    make_within(limits, ty, tunables, base_capacity, slot)
}

// With how many bytes a memory of this type begins, and how many it may have. The limiter is asked first.
fn limit_new<R: ResourceLimiter>(
    ty: &MemoryType,
    limiter: &mut R,
) -> Result<(usize, Option<usize>), MemoryError>
    requires { ty.now.page_size_log2 < 64 }
    ensures value { result ≡ limits_answer (limiter_answer result) ty.now }
    ensures asked { limiter_answer result ≡ memory_answer (R.told limiter.old).rule (limiter_answer result) (minimum_asked ty.now) (maximum_asked ty.now) }
    ensures limiter { R.told limiter.new ≡ after_answer (limiter_answer result) (R.told limiter.old) }
    ensures exchange { R.leads limiter.old (may_grow (minimum_question ty.now) (limiter_answer result)) limiter.new }
    ensures granted { IfOk result (Granted ty.now) }
{
    let answer = limiter.memory_growing(0, minimum_asked(ty), maximum_asked(ty));
    answered_limits(answer, ty)
}

// The same for a memory that a creator makes, which isn't shared.
pub(crate) fn dynamic_limits<R: ResourceLimiter>(
    ty: &MemoryType,
    limiter: &mut R,
) -> Result<(usize, Option<usize>), MemoryError>
    requires { ty.now.page_size_log2 < 64 }
    ensures value { result ≡ dynamic_limits (limiter_answer result) ty.now }
    ensures asked { limiter_answer result ≡ memory_answer (R.told limiter.old).rule (limiter_answer result) (minimum_asked ty.now) (maximum_asked ty.now) }
    ensures limiter { R.told limiter.new ≡ after_answer (limiter_answer result) (R.told limiter.old) }
    ensures exchange { R.leads limiter.old (may_grow (minimum_question ty.now) (limiter_answer result)) limiter.new }
    ensures granted { IfOk result (Granted ty.now) }
{
    let allowed = limit_new(ty, limiter);
    unshared_limits(allowed, ty)
}

fn unshared_limits(
    limits: Result<(usize, Option<usize>), MemoryError>,
    ty: &MemoryType,
) -> Result<(usize, Option<usize>), MemoryError>
    requires value { limits ≡ limits_answer (limiter_answer limits) ty.now }
    requires granted { IfOk limits (Granted ty.now) }
    ensures value { result ≡ dynamic_limits (limiter_answer limits) ty.now }
    ensures answer { limiter_answer result ≡ limiter_answer limits }
    ensures granted { IfOk result (Granted ty.now) }
{
    match limits {
        Err(MemoryError::LimiterFault(error)) => Err(MemoryError::LimiterFault(error)),
        Err(MemoryError::LimiterDenied { min }) => Err(MemoryError::LimiterDenied { min }),
        _ if ty.shared => Err(MemoryError::Unsupported(Unsupported::SharedOnDemand)),
        limits => limits,
    }
}

fn answered_limits(
    answer: Result<bool, LimiterError>,
    ty: &MemoryType,
) -> Result<(usize, Option<usize>), MemoryError>
    requires { ty.now.page_size_log2 < 64 }
    ensures value { result ≡ limits_answer answer ty.now }
    ensures granted { IfOk result (Granted ty.now) }
{
    match answer {
        Err(error) => Err(MemoryError::LimiterFault(error)),
        Ok(false) => Err(MemoryError::LimiterDenied { min: ty.limits.min }),
        Ok(true) => granted_limits(ty),
    }
}

/// With how many bytes a memory of this type begins, and how many it may have, where no limiter refuses it. Answers
/// `Unsupported` alone: where a `u64` or the memory's addresses can't hold the minimum.
pub fn granted_limits(ty: &MemoryType) -> Result<(usize, Option<usize>), MemoryError>
    requires { ty.now.page_size_log2 < 64 }
    ensures value { result ≡ limits_answer (Ok true) ty.now }
    ensures granted { IfOk result (Granted ty.now) }
{
    let Some(minimum) = ty.minimum_byte_size() else {
        let pages = ty.limits.min;
        return Err(MemoryError::Unsupported(Unsupported::MemoryMinimum { pages }));
    };
    let minimum = minimum as usize;
    if ty.allow_growth_to(minimum) {
        Ok((minimum, maximum_asked(ty)))
    } else {
        Err(MemoryError::Unsupported(Unsupported::AddressSpace))
    }
}

fn minimum_asked(ty: &MemoryType) -> usize
    requires { ty.now.page_size_log2 < 64 }
    ensures { result ≡ minimum_asked ty.now }
{
    match ty.minimum_byte_size() {
        Some(minimum) => minimum as usize,
        None => usize::MAX - (ty.page_size() as usize - 1),
    }
}

pub(crate) fn maximum_asked(ty: &MemoryType) -> Option<usize>
    requires { ty.now.page_size_log2 < 64 }
    ensures { result ≡ maximum_asked ty.now }
{
    match ty.maximum_byte_size() {
        Some(maximum) => Some(maximum as usize),
        None => None,
    }
}

// The memory in the slot, or the slot with what refused it.
fn make_within<P: Pages>(
    limits: Result<(usize, Option<usize>), MemoryError>,
    ty: &MemoryType,
    tunables: &MemoryTunables,
    base_capacity: usize,
    slot: MemoryImageSlot<P>,
) -> Result<Memory<(), StaticMemory<P>>, (MemoryImageSlot<P>, MemoryError)>
    requires page { ty.now.page_size_log2 < 64 }
    requires limits { refused_limits ty.now.limits ≡ None }
    requires granted { IfOk limits (Granted ty.now) }
    requires slot { minimum_byte_size ty.now < 2 ^ 64 → CanHold (minimum_byte_size ty.now) slot }
    requires room { rounded_up slot.region.page base_capacity ≤ slot.static_size }
    ensures value { result ≡ made_within limits ty.now base_capacity slot }
    ensures begun { IfOk result (λ m. (image : Option Image) → IsBegun image slot → EndsWithin (minimum_byte_size ty.now) image → IfSome (bytes_of (state_of m)) (λ bytes. bytes ≡ start image (minimum_byte_size ty.now))) }
{
    let (minimum, maximum) = match limits {
        Ok(limits) => limits,
        Err(error) => return Err((slot, error)),
    };
    let _accessible = slot.accessible();
    match StaticMemory::new(base_capacity, minimum, maximum, slot) {
        Ok(memory) => Ok(Memory::Local(LocalMemory::with_memory(ty, tunables, memory))),
        Err((slot, refusal)) => Err((slot, MemoryError::Unsupported(refusal))),
    }
}
