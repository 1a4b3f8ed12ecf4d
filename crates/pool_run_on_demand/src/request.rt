ghost use Rattle.std.specs.Prelude.{◌≡◌, ℕ, ◌<◌, length, replicate, true, false, None, Some, IfOk, IfErr};
ghost use Rattle.pool_types.specs.MemoryTypes.{refused_limits};
ghost use Rattle.pool_types.specs.Rising.{risen};
ghost use Rattle.pool_memory.specs.Creators.{IsSameMaker};
ghost use Rattle.pool_on_demand.specs.Answers.{no_slot};
ghost use Rattle.pool_alloc.specs.Requests.{IsModule};
ghost use Rattle.pool_alloc.specs.Refusals.{first_refused, offset_refused};
ghost use Rattle.pool_run.specs.Acts.{requests};
ghost use Rattle.pool_run.specs.AtOnce.{given_wanted};
ghost use Rattle.pool_run_on_demand.specs.OnDemand.{Makes, MakesHeap, MakesStack, MakesWanted, request_on_demand};
ghost use Rattle.pool_run_on_demand.specs.Left.{HeapSpends, InstanceSpends, LeaseSpends, RequestSpends, laid_for_heap, laying_of};
ghost use Rattle.pool_run_on_demand.specs.Seen.{number_of, AnswersHeap, AnswersHeapMemory, AnswersOnDemand, AreCallsOnDemand, AreLive, IsAllocatorFor, IsCallOnDemand, grants_made};
ghost use Rattle.pool_run.specs.PartyRules.{rule_of};
ghost use Rattle.pool_run.specs.Private.{Terms};
ghost use Rattle.pool_run.specs.PrivateTables.{goes_through};
ghost use Rattle.pool_run.specs.Worlds.{NamesModule};

use crate::grant::OnDemandGrant;
use pool_alloc::{InstanceAllocationRequest, InstanceAllocator, ModuleCall, offsets_refused};
use pool_images::ModuleMemoryImages;
use pool_index::ShardId;
use pool_limits::{ResourceLimiter, Unlimited};
use pool_memory::{DefaultMemoryCreator, LinearMemory};
use pool_on_demand::{
    OnDemandHeap, OnDemandInstance, OnDemandInstanceAllocator, OnDemandMemory, OnDemandSeat,
};
use pool_pages::PageMaker;
use pool_run::{PartyLimits, Refusal, Reply, SlotList, Wanted, heap_type, limiter_of};
use pool_slots::{AllocError as Cause, ListedHeaps, PlainHeap};
use pool_types::{MemoryKind, MemoryType, ModuleInfo, PlainList, Tunables};
use std::alloc::{AllocError, Global};

// There are no shards on demand.
pub(crate) const HOME: ShardId = ShardId(0);

// Asks for this, and puts what is granted into the place of command `n`.
pub(crate) fn ask_on_demand<M: PageMaker>(
    alloc: Global,
    allocator: &OnDemandInstanceAllocator<M, DefaultMemoryCreator>,
    seat: &mut OnDemandSeat<M>,
    tunables: &Tunables,
    calls: &[ModuleCall],
    wanted: &Wanted,
    heaps: &mut ListedHeaps,
    live: &mut Vec<Option<OnDemandGrant<M, LinearMemory<M::Region>, M::Region>>>,
    n: usize,
    limits: Option<PartyLimits>,
) -> Reply
    ghost terms: { Terms }
    requires maker { IsAllocatorFor terms allocator.now (M.told seat.old.maker) }
    requires calls { AreCallsOnDemand terms tunables.now calls.now }
    requires named { NamesModule (length calls.now) (requests (given_wanted wanted.now)) }
    requires rule { terms.host.rule ≡ rule_of limits }
    requires unmade { terms.host.unmade ≡ heaps.old.failing }
    requires place { n < length live.old.items }
    requires held { AreLive terms.tells live.old.items }
    ensures makes { (stores : ℕ) → MakesWanted terms n (given_wanted wanted.now) (record { grants = grants_made terms.tells live.old.items; stores = stores; heaps = heaps.old.made }) result (record { grants = grants_made terms.tells live.new.items; stores = stores; heaps = heaps.new.made }) }
    ensures failing { heaps.new.failing ≡ heaps.old.failing }
    ensures spends { RequestSpends (laying_of terms (M.told seat.old.maker)) (M.told seat.old.maker) (M.told seat.new.maker) live.old.items live.new.items result }
    ensures held { AreLive terms.tells live.new.items }
    ensures places { length live.new.items ≡ length live.old.items }
    ensures maker { IsSameMaker (M.told seat.old.maker) (M.told seat.new.maker) }
    ensures borrows { M.borrows seat.new.maker ≡ M.borrows seat.old.maker }
{
    match wanted {
        Wanted::Instance { module } => request_on_demand(
            alloc,
            allocator,
            seat,
            tunables,
            &calls[*module],
            live,
            n,
            limits,
        ),
        Wanted::Component(_info) => {
            live[n] = Some(OnDemandGrant::Component);
            Reply::Component
        }
        Wanted::Stack => request_stack(alloc, allocator, seat, live, n),
        Wanted::Heap(wanted) => {
            let ty = heap_type(*wanted);
            request_heap(
                alloc, allocator, seat, tunables, &ty, heaps, live, n, limits,
            )
        }
    }
}

// Asks for a stack, and puts it into the place of command `n`.
fn request_stack<M: PageMaker>(
    alloc: Global,
    allocator: &OnDemandInstanceAllocator<M, DefaultMemoryCreator>,
    seat: &mut OnDemandSeat<M>,
    live: &mut Vec<Option<OnDemandGrant<M, LinearMemory<M::Region>, M::Region>>>,
    n: usize,
) -> Reply
    ghost terms: { Terms }
    requires maker { IsAllocatorFor terms allocator.now (M.told seat.old.maker) }
    requires place { n < length live.old.items }
    requires held { AreLive terms.tells live.old.items }
    ensures makes { MakesStack terms n (grants_made terms.tells live.old.items) result (grants_made terms.tells live.new.items) }
    ensures spends { RequestSpends (laying_of terms (M.told seat.old.maker)) (M.told seat.old.maker) (M.told seat.new.maker) live.old.items live.new.items result }
    ensures held { AreLive terms.tells live.new.items }
    ensures places { length live.new.items ≡ length live.old.items }
    ensures maker { IsSameMaker (M.told seat.old.maker) (M.told seat.new.maker) }
    ensures borrows { M.borrows seat.new.maker ≡ M.borrows seat.old.maker }
{
    let _page = seat.maker.page().get();
    match InstanceAllocator::<Unlimited, ListedHeaps>::allocate_fiber_stack(
        allocator, alloc, HOME, seat,
    ) {
        Ok(lease) => {
            let slot = lease.stack.index();
            live[n] = Some(OnDemandGrant::Stack(lease));
            Reply::Stack(slot)
        }
        Err(error) => Reply::Refused(Refusal::Alloc(error)),
    }
}

// Asks for a heap whose memory is of this type, and puts it into the place of command `n`.
fn request_heap<M: PageMaker>(
    alloc: Global,
    allocator: &OnDemandInstanceAllocator<M, DefaultMemoryCreator>,
    seat: &mut OnDemandSeat<M>,
    tunables: &Tunables,
    ty: &MemoryType,
    heaps: &mut ListedHeaps,
    live: &mut Vec<Option<OnDemandGrant<M, LinearMemory<M::Region>, M::Region>>>,
    n: usize,
    limits: Option<PartyLimits>,
) -> Reply
    ghost terms: { Terms }
    requires maker { IsAllocatorFor terms allocator.now (M.told seat.old.maker) }
    requires settings { terms.settings.tunables ≡ record { tunables = tunables.now; kind = MemoryKind.LinearMemory } }
    requires rule { terms.host.rule ≡ rule_of limits }
    requires unmade { terms.host.unmade ≡ heaps.old.failing }
    requires page { ty.now.page_size_log2 < 64 }
    requires place { n < length live.old.items }
    requires held { AreLive terms.tells live.old.items }
    ensures makes { (stores : ℕ) → MakesHeap terms n ty.now (record { grants = grants_made terms.tells live.old.items; stores = stores; heaps = heaps.old.made }) result (record { grants = grants_made terms.tells live.new.items; stores = stores; heaps = heaps.new.made }) }
    ensures failing { heaps.new.failing ≡ heaps.old.failing }
    ensures spends { RequestSpends (laying_of terms (M.told seat.old.maker)) (M.told seat.old.maker) (M.told seat.new.maker) live.old.items live.new.items result }
    ensures held { AreLive terms.tells live.new.items }
    ensures places { length live.new.items ≡ length live.old.items }
    ensures maker { IsSameMaker (M.told seat.old.maker) (M.told seat.new.maker) }
    ensures borrows { M.borrows seat.new.maker ≡ M.borrows seat.old.maker }
{
    match make_heap(alloc, allocator, seat, tunables, ty, heaps, limits) {
        Ok((heap, memory)) => {
            live[n] = Some(OnDemandGrant::Heap(heap, memory));
            Reply::Heap {
                heap: u32::MAX,
                memory: u32::MAX,
            }
        }
        Err(error) => Reply::Refused(Refusal::Alloc(error)),
    }
}

// The heap and its memory, or why there is none.
fn make_heap<M: PageMaker>(
    alloc: Global,
    allocator: &OnDemandInstanceAllocator<M, DefaultMemoryCreator>,
    seat: &mut OnDemandSeat<M>,
    tunables: &Tunables,
    ty: &MemoryType,
    heaps: &mut ListedHeaps,
    limits: Option<PartyLimits>,
) -> Result<
    (
        OnDemandHeap<PlainHeap>,
        OnDemandMemory<M, LinearMemory<M::Region>>,
    ),
    Cause,
>
    ghost terms: { Terms }
    requires maker { IsAllocatorFor terms allocator.now (M.told seat.old.maker) }
    requires settings { terms.settings.tunables ≡ record { tunables = tunables.now; kind = MemoryKind.LinearMemory } }
    requires rule { terms.host.rule ≡ rule_of limits }
    requires page { ty.now.page_size_log2 < 64 }
    ensures answer { AnswersHeap terms ty.now heaps.old heaps.new result }
    ensures failing { heaps.new.failing ≡ heaps.old.failing }
    ensures maker { IsSameMaker (M.told seat.old.maker) (M.told seat.new.maker) }
    ensures spends { HeapSpends (laying_of terms (M.told seat.old.maker)) (M.told seat.old.maker) (M.told seat.new.maker) result }
    ensures borrows { M.borrows seat.new.maker ≡ M.borrows seat.old.maker }
{
    if !tunables.collector {
        return Err(Cause::HeapsDisabled);
    }
    if let Err(error) = InstanceAllocator::<Unlimited, ListedHeaps>::validate_memory(
        allocator, HOME, seat, ty,
    ) {
        return Err(error);
    }
    match heap_memory(alloc, allocator, seat, tunables, ty, limits) {
        Ok(memory) => with_heap(alloc, allocator, seat, heaps, memory),
        Err(error) => Err(error),
    }
}

// A heap's memory, under these limits.
fn heap_memory<M: PageMaker>(
    alloc: Global,
    allocator: &OnDemandInstanceAllocator<M, DefaultMemoryCreator>,
    seat: &mut OnDemandSeat<M>,
    tunables: &Tunables,
    ty: &MemoryType,
    limits: Option<PartyLimits>,
) -> Result<OnDemandMemory<M, LinearMemory<M::Region>>, Cause>
    ghost terms: { Terms }
    requires maker { IsAllocatorFor terms allocator.now (M.told seat.old.maker) }
    requires settings { terms.settings.tunables ≡ record { tunables = tunables.now; kind = MemoryKind.LinearMemory } }
    requires rule { terms.host.rule ≡ rule_of limits }
    requires page { ty.now.page_size_log2 < 64 }
    requires check { refused_limits ty.now.limits ≡ None }
    ensures answer { AnswersHeapMemory terms ty.now result }
    ensures maker { IsSameMaker (M.told seat.old.maker) (M.told seat.new.maker) }
    ensures spends { LeaseSpends (laid_for_heap (laying_of terms (M.told seat.old.maker))) (M.told seat.old.maker) (M.told seat.new.maker) result }
    ensures borrows { M.borrows seat.new.maker ≡ M.borrows seat.old.maker }
{
    let none = no_module(alloc);
    match limits {
        None => {
            let limiter = &mut Unlimited;
            memory_for_heap(alloc, allocator, seat, tunables, ty, &none, limiter)
        }
        Some(limits) => {
            let mut limiter = limiter_of(limits);
            memory_for_heap(alloc, allocator, seat, tunables, ty, &none, &mut limiter)
        }
    }
}

// The same, where the limiter tells this rule. It is a memory of no module.
fn memory_for_heap<'x, M: PageMaker, R: ResourceLimiter>(
    alloc: Global,
    allocator: &OnDemandInstanceAllocator<M, DefaultMemoryCreator>,
    seat: &mut OnDemandSeat<M>,
    tunables: &'x Tunables,
    ty: &MemoryType,
    none: &'x ModuleInfo,
    limiter: &'x mut R,
) -> Result<OnDemandMemory<M, LinearMemory<M::Region>>, Cause>
    ghost terms: { Terms }
    requires maker { IsAllocatorFor terms allocator.now (M.told seat.old.maker) }
    requires settings { terms.settings.tunables ≡ record { tunables = tunables.now; kind = MemoryKind.LinearMemory } }
    requires rule { (R.told limiter.old).rule ≡ Some terms.host.rule }
    requires page { ty.now.page_size_log2 < 64 }
    requires check { refused_limits ty.now.limits ≡ None }
    requires none { IsModule none.now }
    ensures answer { AnswersHeapMemory terms ty.now result }
    ensures maker { IsSameMaker (M.told seat.old.maker) (M.told seat.new.maker) }
    ensures spends { LeaseSpends (laid_for_heap (laying_of terms (M.told seat.old.maker))) (M.told seat.old.maker) (M.told seat.new.maker) result }
    ensures borrows { M.borrows seat.new.maker ≡ M.borrows seat.old.maker }
{
    let images: Option<&'x ModuleMemoryImages> = None;
    let mut request = InstanceAllocationRequest {
        module: none,
        images,
        unique_id: None,
        tunables,
        stripe: None,
        limiter: Some(limiter),
    };
    InstanceAllocator::<R, ListedHeaps>::allocate_memory(
        allocator,
        alloc,
        HOME,
        seat,
        &mut request,
        ty,
        None,
    )
}

fn no_module(alloc: Global) -> ModuleInfo
    ensures { IsModule result }
{
    ModuleInfo {
        memories: PlainList::new(alloc),
        tables: PlainList::new(alloc),
        state_bytes: 0,
        parts: PlainList::new(alloc),
    }
}

// A heap over this memory. Where there is none, the memory is given back.
fn with_heap<M: PageMaker>(
    alloc: Global,
    allocator: &OnDemandInstanceAllocator<M, DefaultMemoryCreator>,
    seat: &mut OnDemandSeat<M>,
    heaps: &mut ListedHeaps,
    memory: OnDemandMemory<M, LinearMemory<M::Region>>,
) -> Result<
    (
        OnDemandHeap<PlainHeap>,
        OnDemandMemory<M, LinearMemory<M::Region>>,
    ),
    Cause,
>
    ensures made { IfOk result (λ made. (made.0.index.0 ≡ no_slot) × ((made.1 ≡ memory) × ((goes_through heaps.old.failing heaps.old.made ≡ true) × (heaps.new.made ≡ risen heaps.old.made)))) }
    ensures unmade { IfErr result (λ e. (e ≡ Cause.HeapFault) × ((goes_through heaps.old.failing heaps.old.made ≡ false) × (heaps.new.made ≡ risen heaps.old.made))) }
    ensures failing { heaps.new.failing ≡ heaps.old.failing }
    ensures seat { seat.new ≡ seat.old }
{
    let index = memory.index;
    match InstanceAllocator::<Unlimited, ListedHeaps>::allocate_gc_heap(
        allocator, alloc, HOME, seat, heaps, index,
    ) {
        Ok(heap) => Ok((heap, memory)),
        Err(error) => {
            InstanceAllocator::<Unlimited, ListedHeaps>::deallocate_memory(
                allocator, HOME, seat, memory,
            );
            Err(error)
        }
    }
}

// Asks for an instance of a module, and puts it into the place of command `n`.
fn request_on_demand<M: PageMaker>(
    alloc: Global,
    allocator: &OnDemandInstanceAllocator<M, DefaultMemoryCreator>,
    seat: &mut OnDemandSeat<M>,
    tunables: &Tunables,
    call: &ModuleCall,
    live: &mut Vec<Option<OnDemandGrant<M, LinearMemory<M::Region>, M::Region>>>,
    n: usize,
    limits: Option<PartyLimits>,
) -> Reply
    ghost terms: { Terms }
    requires maker { IsAllocatorFor terms allocator.now (M.told seat.old.maker) }
    requires call { IsCallOnDemand terms tunables.now call.now }
    requires rule { terms.host.rule ≡ rule_of limits }
    requires place { n < length live.old.items }
    requires held { AreLive terms.tells live.old.items }
    ensures makes { Makes terms n (request_on_demand terms (number_of call.now)) (grants_made terms.tells live.old.items) result (grants_made terms.tells live.new.items) }
    ensures spends { RequestSpends (laying_of terms (M.told seat.old.maker)) (M.told seat.old.maker) (M.told seat.new.maker) live.old.items live.new.items result }
    ensures held { AreLive terms.tells live.new.items }
    ensures places { length live.new.items ≡ length live.old.items }
    ensures maker { IsSameMaker (M.told seat.old.maker) (M.told seat.new.maker) }
    ensures borrows { M.borrows seat.new.maker ≡ M.borrows seat.old.maker }
{
    let Ok((memories, tables)) = slots_for(alloc, &call.info) else {
        return Reply::Refused(Refusal::Alloc(Cause::Memory));
    };
    match request(alloc, allocator, seat, tunables, call, limits) {
        Ok(grant) => {
            live[n] = Some(OnDemandGrant::Instance(grant));
            Reply::Instance { memories, tables }
        }
        Err(error) => Reply::Refused(Refusal::Alloc(error)),
    }
}

// The instance, or why it is refused.
fn request<M: PageMaker>(
    alloc: Global,
    allocator: &OnDemandInstanceAllocator<M, DefaultMemoryCreator>,
    seat: &mut OnDemandSeat<M>,
    tunables: &Tunables,
    call: &ModuleCall,
    limits: Option<PartyLimits>,
) -> Result<OnDemandInstance<M, LinearMemory<M::Region>, M::Region>, Cause>
    ghost terms: { Terms }
    requires maker { IsAllocatorFor terms allocator.now (M.told seat.old.maker) }
    requires call { IsCallOnDemand terms tunables.now call.now }
    requires rule { terms.host.rule ≡ rule_of limits }
    ensures answer { AnswersOnDemand terms (request_on_demand terms (number_of call.now)) result }
    ensures maker { IsSameMaker (M.told seat.old.maker) (M.told seat.new.maker) }
    ensures spends { InstanceSpends (laying_of terms (M.told seat.old.maker)) (M.told seat.old.maker) (M.told seat.new.maker) result }
    ensures borrows { M.borrows seat.new.maker ≡ M.borrows seat.old.maker }
{
    if let Some(rule) = offsets_refused(seat.maker.page(), call.info.memories.as_slice()) {
        return Err(Cause::Unsupported(rule));
    }
    match limits {
        None => allocate(alloc, allocator, seat, tunables, call, &mut Unlimited),
        Some(limits) => {
            let mut limiter = limiter_of(limits);
            allocate(alloc, allocator, seat, tunables, call, &mut limiter)
        }
    }
}

// The same once no image begins inside a page, where the limiter tells this rule.
fn allocate<'x, M: PageMaker, R: ResourceLimiter>(
    alloc: Global,
    allocator: &OnDemandInstanceAllocator<M, DefaultMemoryCreator>,
    seat: &mut OnDemandSeat<M>,
    tunables: &'x Tunables,
    call: &'x ModuleCall,
    limiter: &'x mut R,
) -> Result<OnDemandInstance<M, LinearMemory<M::Region>, M::Region>, Cause>
    ghost terms: { Terms }
    requires maker { IsAllocatorFor terms allocator.now (M.told seat.old.maker) }
    requires call { IsCallOnDemand terms tunables.now call.now }
    requires rule { (R.told limiter.old).rule ≡ Some terms.host.rule }
    requires offsets { first_refused (λ d. offset_refused terms.settings.page d.image) call.now.info.memories ≡ None }
    ensures answer { AnswersOnDemand terms (request_on_demand terms (number_of call.now)) result }
    ensures maker { IsSameMaker (M.told seat.old.maker) (M.told seat.new.maker) }
    ensures spends { InstanceSpends (laying_of terms (M.told seat.old.maker)) (M.told seat.old.maker) (M.told seat.new.maker) result }
    ensures borrows { M.borrows seat.new.maker ≡ M.borrows seat.old.maker }
{
    let _page = seat.maker.page().get();
    let images = match &call.images {
        None => None,
        Some(images) => Some(&**images),
    };
    let mut request = InstanceAllocationRequest {
        module: &*call.info,
        images,
        unique_id: call.id,
        tunables,
        stripe: None,
        limiter: Some(limiter),
    };
    InstanceAllocator::<R, ListedHeaps>::allocate_module(allocator, alloc, HOME, seat, &mut request)
}

// What the reply to a request says of its memories and tables: they are in no slot.
fn slots_for(alloc: Global, info: &ModuleInfo) -> Result<(SlotList, SlotList), AllocError>
    ensures memories { IfOk result (λ r. r.0 ≡ replicate (length info.now.memories) no_slot) }
    ensures tables { IfOk result (λ r. r.1 ≡ replicate (length info.now.tables) no_slot) }
{
    let memories = vec![in alloc; u32::MAX; info.memories.len()]?;
    let tables = vec![in alloc; u32::MAX; info.tables.len()]?;
    Ok((PlainList::from_vec(memories), PlainList::from_vec(tables)))
}
