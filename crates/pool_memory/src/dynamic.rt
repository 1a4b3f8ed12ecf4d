ghost use Rattle.std.specs.Prelude.{[], ◌∷◌, ◌≡◌, ◌+◌, ◌^◌, ◌<◌, ◌≤◌, ◌&&◌, true, Ok, IfOk, IfErr, IfSome, OnErr, option_map};
ghost use Rattle.std.specs.Arc.{arc_value};
ghost use Rattle.std.specs.Option.{option_copied_mut};
ghost use Rattle.pool_types.specs.MemoryTypes.{page_size, minimum_byte_size, memory_may_move};
ghost use Rattle.pool_limits.specs.Growth.{memory_answer};
ghost use Rattle.pool_limits.specs.LimiterTold.{after_answer, limiter_told, option_left};
ghost use Rattle.pool_limits.specs.Exchanges.{may_grow, IfExchanged};
ghost use Rattle.pool_memory.specs.Creators.{IsSameMaker};
ghost use Rattle.pool_memory.specs.Dynamic.{ImageOf, IsDynamic, RefusesBy, DynamicLeaves, dynamic_limits};
ghost use Rattle.pool_memory.specs.Making.{Granted, limiter_answer, minimum_asked, maximum_asked, minimum_question};
ghost use Rattle.pool_memory.specs.MemoryStates.{state_of};
ghost use Rattle.pool_memory.specs.Linear.{Linear};
ghost use Rattle.pool_memory.specs.Starting.{takes_image, ImageFits, HasNotStarted, BeginsWith, StartsBy};

use crate::creators::RuntimeMemoryCreator;
use crate::linear_memory::RuntimeLinearMemory;
use crate::local_memory::LocalMemory;
use crate::making::dynamic_limits;
use crate::memory::Memory;
use crate::memory_error::MemoryError;
use pool_images::MemoryImage;
use pool_limits::{ResourceLimiter, Unlimited};
use pool_pages::PageMaker;
use pool_types::{MemoryKind, MemoryTunables, MemoryType, Unsupported};
use std::alloc::Global;
use std::sync::Arc;

impl<M: PageMaker, L: RuntimeLinearMemory<M>> Memory<M, L> {
    /// The memory of this type that a creator makes by the settings for memories of this kind. The limiter is asked first;
    /// then a type that is shared is refused, and a minimum that a `u64` or the memory's addresses can't hold, and what the
    /// creator doesn't support; only then anything is made. An image is mapped where the memory takes it, and dropped
    /// otherwise.
    pub fn new_dynamic<C: RuntimeMemoryCreator<M, Linear = L>, R: ResourceLimiter>(
        alloc: Global,
        maker: &mut M,
        ty: &MemoryType,
        tunables: &MemoryTunables,
        creator: &C,
        image: Option<&Arc<MemoryImage>>,
        limiter: Option<&mut R>,
        kind: MemoryKind,
    ) -> Result<Memory<M, L>, MemoryError>
        requires page { ty.now.page_size_log2 < 64 }
        requires image { IfSome image (λ i. ImageOf ty.now (M.told maker.old) (arc_value i.now)) }
        ensures made { IfOk result (λ m. IsDynamic ty.now (record { tunables = tunables.now.tunables; kind = kind }) (C.designs creator.now (M.told maker.old).page ty.now (record { tunables = tunables.now.tunables; kind = kind }) (minimum_byte_size ty.now) (maximum_asked ty.now)) (option_map (λ i. arc_value i.now) image.entry) (M.told maker.new).next (M.told maker.old) (state_of m)) }
        ensures refused { RefusesBy (dynamic_limits (limiter_answer result) ty.now) (λ minimum maximum. C.refuses creator.now (M.told maker.old).page ty.now (record { tunables = tunables.now.tunables; kind = kind }) minimum maximum) result (M.told maker.old) (M.told maker.new) }
        ensures asked { limiter_answer result ≡ memory_answer (limiter_told R.told (option_copied_mut limiter.entry)).rule (limiter_answer result) (minimum_asked ty.now) (maximum_asked ty.now) }
        ensures limiter { limiter_told R.told (option_left limiter.exit) ≡ after_answer (limiter_answer result) (limiter_told R.told (option_copied_mut limiter.entry)) }
        ensures exchange { IfExchanged R.leads (may_grow (minimum_question ty.now) (limiter_answer result) ∷ []) (option_copied_mut limiter.entry) (option_left limiter.exit) }
        ensures borrows { M.borrows maker.new ≡ M.borrows maker.old }
        ensures maker { IsSameMaker (M.told maker.old) (M.told maker.new) }
        ensures counts { DynamicLeaves result (M.told maker.old) (M.told maker.new) }
    {
        let settings = MemoryTunables::new(tunables.tunables(), kind);
        match limiter {
            Some(limiter) => {
                let limits = dynamic_limits(ty, limiter);
                make_dynamic(alloc, maker, ty, &settings, creator, image, limits)
            }
            None => {
                let limits = dynamic_limits(ty, &mut Unlimited);
                make_dynamic(alloc, maker, ty, &settings, creator, image, limits)
            }
        }
    }
}

// The memory within limits that were granted, or what refused it.
fn make_dynamic<M: PageMaker, L: RuntimeLinearMemory<M>, C: RuntimeMemoryCreator<M, Linear = L>>(
    alloc: Global,
    maker: &mut M,
    ty: &MemoryType,
    tunables: &MemoryTunables,
    creator: &C,
    image: Option<&Arc<MemoryImage>>,
    limits: Result<(usize, Option<usize>), MemoryError>,
) -> Result<Memory<M, L>, MemoryError>
    requires page { ty.now.page_size_log2 < 64 }
    requires image { IfSome image (λ i. ImageOf ty.now (M.told maker.old) (arc_value i.now)) }
    requires limits { limits ≡ dynamic_limits (limiter_answer limits) ty.now }
    requires granted { IfOk limits (Granted ty.now) }
    ensures made { IfOk result (λ m. IsDynamic ty.now tunables.now (C.designs creator.now (M.told maker.old).page ty.now tunables.now (minimum_byte_size ty.now) (maximum_asked ty.now)) (option_map (λ i. arc_value i.now) image.entry) (M.told maker.new).next (M.told maker.old) (state_of m)) }
    ensures refused { RefusesBy limits (λ minimum maximum. C.refuses creator.now (M.told maker.old).page ty.now tunables.now minimum maximum) result (M.told maker.old) (M.told maker.new) }
    ensures answer { limiter_answer result ≡ limiter_answer limits }
    ensures borrows { M.borrows maker.new ≡ M.borrows maker.old }
    ensures maker { IsSameMaker (M.told maker.old) (M.told maker.new) }
    ensures counts { DynamicLeaves result (M.told maker.old) (M.told maker.new) }
{
    let (minimum, maximum) = match limits {
        Ok(limits) => limits,
        Err(error) => return Err(error),
    };
    match creator.new_memory(alloc, maker, ty, tunables, minimum, maximum) {
        Ok(memory) => begin(ty, tunables, memory, image),
        Err(error) => Err(error),
    }
}

// The memory with its image, where it takes one.
fn begin<M, L: RuntimeLinearMemory<M>>(
    ty: &MemoryType,
    tunables: &MemoryTunables,
    memory: L,
    image: Option<&Arc<MemoryImage>>,
) -> Result<Memory<M, L>, MemoryError>
    requires page { ty.now.page_size_log2 < 64 }
    requires room { (L.linear memory).size + page_size ty.now ≤ 2 ^ 64 }
    requires image { IfSome image (λ i. (L.untouched memory ≡ true) × ImageFits (arc_value i.now) (L.linear memory)) }
    ensures parts { IfOk result (λ m. ((state_of m).ty ≡ ty.now) × ((state_of m).may_move ≡ (memory_may_move ty.now tunables.now && (L.linear memory).moves))) }
    ensures begins { IfOk result (λ m. BeginsWith (takes_image (L.linear memory)) (option_map (λ i. arc_value i.now) image.entry) (L.linear memory) (state_of m).linear) }
    ensures order { IfOk result (λ m. IfSome (option_map (λ i. arc_value i.now) image.entry) (λ i. StartsBy ty.now tunables.now i true (L.linear memory) (state_of m).linear)) }
    ensures fault { IfErr result (λ e. e ≡ MemoryError.PageFault) }
    ensures left { OnErr result ((new : Linear) × HasNotStarted (L.linear memory) new) }
{
    match LocalMemory::new(ty, tunables, memory, image) {
        Ok(memory) => Ok(Memory::Local(memory)),
        Err(_handed_back) => Err(MemoryError::PageFault),
    }
}
