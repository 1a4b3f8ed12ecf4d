//! The trait of allocators, with one call for each request.
ghost use Rattle.std.specs.Prelude.{◌≡◌, ◌<◌, ℕ, List, [], ◌∷◌, ◌++◌, Option, None, Result, IfErr, IfOk, IfSome, length, All};
ghost use Rattle.pool_types.specs.declared.module_types.CompiledModuleId.{CompiledModuleId};
ghost use Rattle.pool_types.specs.declared.module_types.ComponentInfo.{ComponentInfo};
ghost use Rattle.pool_types.specs.declared.module_types.DefinedMemoryIndex.{DefinedMemoryIndex};
ghost use Rattle.pool_types.specs.declared.module_types.MemoryType.{MemoryType};
ghost use Rattle.pool_types.specs.declared.module_types.ModuleInfo.{ModuleInfo};
ghost use Rattle.pool_types.specs.declared.table_type.TableType.{TableType};
ghost use Rattle.pool_types.specs.declared.unsupported.Unsupported.{Unsupported};
ghost use Rattle.pool_limits.specs.declared.errors.Trap.{Trap};
ghost use Rattle.pool_slots.specs.declared.errors.AllocError.{AllocError};
ghost use Rattle.pool_slots.specs.HeapsTold.{HeapsTold};
ghost use Rattle.pool_types.specs.MemoryTypes.{refused_limits};
ghost use Rattle.pool_alloc.specs.Held.{Held, memory_held, table_held, stack_held, heap_held, instance_held, core_counted, component_counted, StaysSeat, KeepsHeld, GainsHeld, LosesHeld};
ghost use Rattle.pool_alloc.specs.Requests.{IsModule, AreImagesOf, IsLimit, refused_by, IsMemoryOf, IsSameRequest, lent};
ghost use Rattle.pool_alloc.specs.declared.instance_allocator.request.InstanceAllocationRequest.{InstanceAllocationRequest};

pub(crate) mod memories;
pub(crate) mod request;

use crate::instance_allocator::memories::{GrantedMemory, InstanceMemories};
use crate::instance_allocator::request::InstanceAllocationRequest;
use pool_index::ShardId;
use pool_limits::ResourceLimiter;
use pool_slots::{AllocError, HeapMaker, MemoryAllocationIndex};
use pool_types::{
    CompiledModuleId, ComponentInfo, DefinedMemoryIndex, MemoryType, ModuleInfo, TableType,
    Unsupported,
};
use std::alloc::Global;

/// What gives instances their memories, tables, stacks and heaps, and takes them back. Each call is made in one caller's
/// seat. An allocator tells contracts which rules it has, and for each call what it answers and where that leads. A call may wait for
/// other callers where the allocator is shared. A give-back is never refused, and takes no memory.
///
/// A seat has what was granted in it, and the instances that it has counted, until that is given back or counted off: `holds` says what
/// it has beside what another seat has, as it was itself before. Code that is written for every allocator knows what the clauses `held` say
/// of that: what a call grants comes to what the seat has, what is given back must be there and is gone then, and nothing else changes.
pub trait InstanceAllocator<R: ResourceLimiter, K: HeapMaker> {
    type Seat;

    type Memory: GrantedMemory;

    type Table;

    type Stack;

    type Heap;

    type Instance: InstanceMemories;

    // The seat is one of this allocator's, and makes no call.
    ghost fits: { Self → Self.Seat → Type 0 };

    // The seat has this, and may give it back.
    ghost gives: { Self → Held Self.Memory Self.Table Self.Stack Self.Heap Self.Instance → Self.Seat → Type 0 };

    // The second seat has what the first has, and beside that all of these, and nothing else.
    ghost holds: { Self → Self.Seat → List (Held Self.Memory Self.Table Self.Stack Self.Heap Self.Instance) → Self.Seat → Type 0 };

    // The index of the memory that a heap lies over.
    ghost memory_under: { Self.Heap → ℕ };

    // the page of its regions, in this seat
    ghost page: { Self → Self.Seat → ℕ };

    // the first rule that a module, a memory or a component breaks
    ghost module_rule: { Self → ModuleInfo → Option Unsupported };

    ghost memory_rule: { Self → MemoryType → Option Unsupported };

    ghost component_rule: { Self → ComponentInfo → Option Unsupported };

    // A memory of this type may be asked for. One that breaks no rule always may.
    ghost may_ask_for: { Self → MemoryType → Type 0 };

    // A memory may be asked for in the stripe with this number.
    ghost has_stripe: { Self → ℕ → Type 0 };

    // What the allocation of a memory answers from this home, for this request, of this type and as the memory with this number; which
    // seat it leaves of which, and which limiter. And the same of a table, a stack and an instance.
    ghost memory_turn: { Self → ℕ → InstanceAllocationRequest R → MemoryType → Option DefinedMemoryIndex → Result Self.Memory AllocError → Self.Seat → Self.Seat → Option R → Type 0 };

    ghost table_turn: { Self → ℕ → InstanceAllocationRequest R → TableType → Result Self.Table AllocError → Self.Seat → Self.Seat → Option R → Type 0 };

    ghost stack_turn: { Self → ℕ → Result Self.Stack AllocError → Self.Seat → Self.Seat → Type 0 };

    ghost instance_turn: { Self → ℕ → InstanceAllocationRequest R → Result Self.Instance AllocError → Self.Seat → Self.Seat → Option R → Type 0 };

    // What that of a heap over the memory with this index answers from this home, which seat it leaves of which, and which maker.
    ghost heap_turn: { Self → ℕ → ℕ → Result Self.Heap AllocError → Self.Seat → Self.Seat → HeapsTold → HeapsTold → Type 0 };

    // Which seat the give-back of this memory leaves of which; and the same of a table, a stack, a heap and an instance.
    ghost memory_return: { Self → Self.Memory → Self.Seat → Self.Seat → Type 0 };

    ghost table_return: { Self → Self.Table → Self.Seat → Self.Seat → Type 0 };

    ghost stack_return: { Self → Self.Stack → Self.Seat → Self.Seat → Type 0 };

    ghost heap_return: { Self → Self.Heap → Self.Seat → Self.Seat → Type 0 };

    ghost instance_return: { Self → Self.Instance → Self.Seat → Self.Seat → Type 0 };

    // What counting an instance or a component answers, and which seat it leaves of which; and which one counting off leaves.
    ghost core_count: { Self → Result (Unit {0}) AllocError → Self.Seat → Self.Seat → Type 0 };

    ghost component_count: { Self → Result (Unit {0}) AllocError → Self.Seat → Self.Seat → Type 0 };

    ghost core_uncount: { Self → Self.Seat → Self.Seat → Type 0 };

    ghost component_uncount: { Self → Self.Seat → Self.Seat → Type 0 };

    // What a purge of this module answers, and which seat it leaves of which; and the same of asking for a stripe.
    ghost purge_turn: { Self → CompiledModuleId → ℕ → Self.Seat → Self.Seat → Type 0 };

    ghost stripe_turn: { Self → Option ℕ → Self.Seat → Self.Seat → Type 0 };

    /// Refuses a component that breaks a rule, for the first one. Takes no memory.
    fn validate_component(
        &self,
        home: ShardId,
        seat: &mut Self::Seat,
        info: &ComponentInfo,
    ) -> Result<(), AllocError>
        requires fits { fits self.now seat.old }
        ensures answer { result ≡ refused_by (component_rule self.now info.now) }
        ensures seat { seat.new ≡ seat.old };

    /// Refuses a module that breaks a rule, for the first one. `allocate_module` does so too. Takes no memory.
    fn validate_module(
        &self,
        home: ShardId,
        seat: &mut Self::Seat,
        info: &ModuleInfo,
    ) -> Result<(), AllocError>
        requires fits { fits self.now seat.old }
        requires module { IsModule info.now }
        ensures answer { result ≡ refused_by (module_rule self.now info.now) }
        ensures seat { seat.new ≡ seat.old };

    /// Refuses the type of a memory that breaks a rule, for the first one. Takes no memory.
    fn validate_memory(
        &self,
        home: ShardId,
        seat: &mut Self::Seat,
        ty: &MemoryType,
    ) -> Result<(), AllocError>
        requires fits { fits self.now seat.old }
        requires page { ty.now.page_size_log2 < 64 }
        ensures answer { result ≡ refused_by (memory_rule self.now ty.now) }
        ensures seat { seat.new ≡ seat.old };

    /// Counts one core instance more, of a module that is allocated without `allocate_module`. Refused by `Limit` alone, where as many are
    /// counted as there may be. Takes no memory.
    fn increment_core_instance_count(
        &self,
        home: ShardId,
        seat: &mut Self::Seat,
    ) -> Result<(), AllocError>
        requires fits { fits self.now seat.old }
        ensures refused { IfErr result IsLimit }
        ensures counted { core_count self.now result seat.old seat.new }
        ensures seat { StaysSeat (fits self.now) (page self.now) seat.old seat.new }
        ensures held { GainsHeld (holds self.now) (λ _. core_counted) result seat.old seat.new };

    /// Counts one component instance more. Refused likewise.
    fn increment_component_instance_count(
        &self,
        home: ShardId,
        seat: &mut Self::Seat,
    ) -> Result<(), AllocError>
        requires fits { fits self.now seat.old }
        ensures refused { IfErr result IsLimit }
        ensures counted { component_count self.now result seat.old seat.new }
        ensures seat { StaysSeat (fits self.now) (page self.now) seat.old seat.new }
        ensures held { GainsHeld (holds self.now) (λ _. component_counted) result seat.old seat.new };

    /// Counts one core instance less, of those that this seat has counted.
    fn decrement_core_instance_count(&self, home: ShardId, seat: &mut Self::Seat)
        requires fits { fits self.now seat.old }
        requires gives { gives self.now core_counted seat.old }
        ensures uncounted { core_uncount self.now seat.old seat.new }
        ensures seat { StaysSeat (fits self.now) (page self.now) seat.old seat.new }
        ensures held { LosesHeld (holds self.now) core_counted seat.old seat.new };

    /// Counts one component instance less, of those that this seat has counted.
    fn decrement_component_instance_count(&self, home: ShardId, seat: &mut Self::Seat)
        requires fits { fits self.now seat.old }
        requires gives { gives self.now component_counted seat.old }
        ensures uncounted { component_uncount self.now seat.old seat.new }
        ensures seat { StaysSeat (fits self.now) (page self.now) seat.old seat.new }
        ensures held { LosesHeld (holds self.now) component_counted seat.old seat.new };

    /// A memory of this type, which is that of the module with this number, or for a heap where there is none. It begins with that memory's
    /// image and else as zeros. Refused by the limiter, for want of room or of addresses, for a failed page call, or for want of memory.
    fn allocate_memory(
        &self,
        alloc: Global,
        home: ShardId,
        seat: &mut Self::Seat,
        request: &mut InstanceAllocationRequest<R>,
        ty: &MemoryType,
        index: Option<DefinedMemoryIndex>,
    ) -> Result<Self::Memory, AllocError>
        requires fits { fits self.now seat.old }
        requires page { ty.now.page_size_log2 < 64 }
        requires check { refused_limits ty.now.limits ≡ None }
        requires passes { may_ask_for self.now ty.now }
        requires stripe { IfSome request.old.stripe (has_stripe self.now) }
        requires module { IsModule request.old.module.now }
        requires images { IfSome request.old.images (λ i. AreImagesOf (page self.now seat.old) request.old.module.now i.now) }
        requires index { IfSome index (IsMemoryOf request.old.module.now ty.now) }
        ensures made { memory_turn self.now home.0 request.old ty.now index result seat.old seat.new (lent request.new.limiter) }
        ensures request { IsSameRequest request.old request.new }
        ensures seat { StaysSeat (fits self.now) (page self.now) seat.old seat.new }
        ensures held { GainsHeld (holds self.now) memory_held result seat.old seat.new };

    /// A table of this type, with empty elements. Refused by the limiter, for want of room, or for want of memory.
    fn allocate_table(
        &self,
        alloc: Global,
        home: ShardId,
        seat: &mut Self::Seat,
        request: &mut InstanceAllocationRequest<R>,
        ty: &TableType,
    ) -> Result<Self::Table, AllocError>
        requires fits { fits self.now seat.old }
        requires check { refused_limits ty.now.limits ≡ None }
        ensures made { table_turn self.now home.0 request.old ty.now result seat.old seat.new (lent request.new.limiter) }
        ensures request { IsSameRequest request.old request.new }
        ensures seat { StaysSeat (fits self.now) (page self.now) seat.old seat.new }
        ensures held { GainsHeld (holds self.now) table_held result seat.old seat.new };

    /// A stack. Refused with `StacksDisabled` where stacks have no bytes, for want of room, for a failed page call, or for want of memory.
    fn allocate_fiber_stack(
        &self,
        alloc: Global,
        home: ShardId,
        seat: &mut Self::Seat,
    ) -> Result<Self::Stack, AllocError>
        requires fits { fits self.now seat.old }
        ensures made { stack_turn self.now home.0 result seat.old seat.new }
        ensures seat { StaysSeat (fits self.now) (page self.now) seat.old seat.new }
        ensures held { GainsHeld (holds self.now) stack_held result seat.old seat.new };

    /// A heap over the memory with this index, which stays with whoever has it. Refused for want of room, where the maker of heaps fails, or for
    /// want of memory; an allocator that knows of no collector refuses it with `HeapsDisabled`.
    fn allocate_gc_heap(
        &self,
        alloc: Global,
        home: ShardId,
        seat: &mut Self::Seat,
        heaps: &mut K,
        memory: MemoryAllocationIndex,
    ) -> Result<Self::Heap, AllocError>
        requires fits { fits self.now seat.old }
        ensures made { heap_turn self.now home.0 memory.0 result seat.old seat.new (K.told heaps.old) (K.told heaps.new) }
        ensures memory { IfOk result (λ heap. memory_under heap ≡ memory.0) }
        ensures seat { StaysSeat (fits self.now) (page self.now) seat.old seat.new }
        ensures held { GainsHeld (holds self.now) heap_held result seat.old seat.new };

    /// An instance of the request's module: its memories are allocated in order, and then its tables. Refused for the first rule that the module
    /// breaks, or as one of them is, or by `Limit` where as many instances are counted as there may be; then nothing of it is left. When the
    /// limiter is asked, before the first object or before each, is the allocator's to say.
    fn allocate_module(
        &self,
        alloc: Global,
        home: ShardId,
        seat: &mut Self::Seat,
        request: &mut InstanceAllocationRequest<R>,
    ) -> Result<Self::Instance, AllocError>
        requires fits { fits self.now seat.old }
        requires stripe { IfSome request.old.stripe (has_stripe self.now) }
        requires module { IsModule request.old.module.now }
        requires images { IfSome request.old.images (λ i. AreImagesOf (page self.now seat.old) request.old.module.now i.now) }
        ensures made { instance_turn self.now home.0 request.old result seat.old seat.new (lent request.new.limiter) }
        ensures memories { IfOk result (λ instance. Self.Instance.memories instance ≡ length request.old.module.now.memories) }
        ensures request { IsSameRequest request.old request.new }
        ensures seat { StaysSeat (fits self.now) (page self.now) seat.old seat.new }
        ensures held { GainsHeld (holds self.now) instance_held result seat.old seat.new };

    /// Takes a memory back.
    fn deallocate_memory(&self, home: ShardId, seat: &mut Self::Seat, memory: Self::Memory)
        requires fits { fits self.now seat.old }
        requires gives { gives self.now (memory_held memory) seat.old }
        ensures returned { memory_return self.now memory seat.old seat.new }
        ensures seat { StaysSeat (fits self.now) (page self.now) seat.old seat.new }
        ensures held { LosesHeld (holds self.now) (memory_held memory) seat.old seat.new };

    /// Takes a table back.
    fn deallocate_table(&self, home: ShardId, seat: &mut Self::Seat, table: Self::Table)
        requires fits { fits self.now seat.old }
        requires gives { gives self.now (table_held table) seat.old }
        ensures returned { table_return self.now table seat.old seat.new }
        ensures seat { StaysSeat (fits self.now) (page self.now) seat.old seat.new }
        ensures held { LosesHeld (holds self.now) (table_held table) seat.old seat.new };

    /// Takes a stack back.
    fn deallocate_fiber_stack(&self, home: ShardId, seat: &mut Self::Seat, stack: Self::Stack)
        requires fits { fits self.now seat.old }
        requires gives { gives self.now (stack_held stack) seat.old }
        ensures returned { stack_return self.now stack seat.old seat.new }
        ensures seat { StaysSeat (fits self.now) (page self.now) seat.old seat.new }
        ensures held { LosesHeld (holds self.now) (stack_held stack) seat.old seat.new };

    /// Takes a heap back. Answers the index of the memory that it lies over, which is given back apart.
    fn deallocate_gc_heap(
        &self,
        home: ShardId,
        seat: &mut Self::Seat,
        heap: Self::Heap,
    ) -> MemoryAllocationIndex
        requires fits { fits self.now seat.old }
        requires gives { gives self.now (heap_held heap) seat.old }
        ensures returned { heap_return self.now heap seat.old seat.new }
        ensures memory { result.0 ≡ memory_under heap }
        ensures seat { StaysSeat (fits self.now) (page self.now) seat.old seat.new }
        ensures held { LosesHeld (holds self.now) (heap_held heap) seat.old seat.new };

    /// Takes an instance back, with its memories and tables.
    fn deallocate_module(&self, home: ShardId, seat: &mut Self::Seat, instance: Self::Instance)
        requires fits { fits self.now seat.old }
        requires gives { gives self.now (instance_held instance) seat.old }
        ensures returned { instance_return self.now instance seat.old seat.new }
        ensures seat { StaysSeat (fits self.now) (page self.now) seat.old seat.new }
        ensures held { LosesHeld (holds self.now) (instance_held instance) seat.old seat.new };

    /// Answers how many slots that the module was in are no longer its own. Takes no memory.
    fn purge_module(&self, home: ShardId, seat: &mut Self::Seat, id: CompiledModuleId) -> u64
        requires fits { fits self.now seat.old }
        ensures purged { purge_turn self.now id result seat.old seat.new }
        ensures seat { StaysSeat (fits self.now) (page self.now) seat.old seat.new }
        ensures held { KeepsHeld (holds self.now) seat.old seat.new };

    /// The stripe that the next store may have, where memories are coloured. Takes no memory.
    fn next_available_pkey(&self, home: ShardId, seat: &mut Self::Seat) -> Option<u32>
        requires fits { fits self.now seat.old }
        ensures drawn { stripe_turn self.now result seat.old seat.new }
        ensures stripe { IfSome result (has_stripe self.now) }
        ensures seat { StaysSeat (fits self.now) (page self.now) seat.old seat.new }
        ensures held { KeepsHeld (holds self.now) seat.old seat.new };

    // A memory that breaks no rule may be asked for.
    ghost passing: { (a : Self) (ty : MemoryType) → memory_rule a ty ≡ None → may_ask_for a ty };

    // A seat has what it has, and nothing beside. What it has beside may be given back, in any order.
    ghost holds_none: { (a : Self) (seat : Self.Seat) → fits a seat → holds a seat [] seat };

    ghost holds_gives: { (a : Self) (base seat : Self.Seat) (x : Held Self.Memory Self.Table Self.Stack Self.Heap Self.Instance) (others : List (Held Self.Memory Self.Table Self.Stack Self.Heap Self.Instance)) → holds a base (x ∷ others) seat → gives a x seat };

    ghost holds_moved: { (a : Self) (base seat : Self.Seat) (before after : List (Held Self.Memory Self.Table Self.Stack Self.Heap Self.Instance)) (x : Held Self.Memory Self.Table Self.Stack Self.Heap Self.Instance) → holds a base (before ++ x ∷ after) seat → holds a base (x ∷ (before ++ after)) seat };

    // An instance whose memory was written is had still.
    ghost holds_written: { (a : Self) (base seat : Self.Seat) (old new : Self.Instance) (others : List (Held Self.Memory Self.Table Self.Stack Self.Heap Self.Instance)) (memory at : ℕ) (bytes : List ℕ) (answer : Result (Unit {0}) Trap) → Self.Instance.wrote memory at bytes answer old new → holds a base (instance_held old ∷ others) seat → holds a base (instance_held new ∷ others) seat };
}
