//! A caller's frame: the call under way, and its next step.

mod calls;
pub(crate) mod turns;

use crate::leases::heap::HeapLease;
use crate::leases::instance::InstanceLease;
use crate::leases::memory::MemoryLease;
use crate::leases::stack::StackLease;
use crate::leases::table::TableLease;
use crate::purge::{PurgeCursor, PurgeStep};
use crate::release::ReleaseStep;
use crate::reserved::ReservedList;
use pool_images::{MemoryImage, MemoryImageSlot, ModuleMemoryImages};
use pool_index::MemoryInModule;
use pool_pages::{PageRegion, Pages};
use pool_slots::{
    AllocError, DecommitQueue, GcHeap, ImageSlot, MemoryAllocationIndex, RegionNumbers, SlotName,
};
use pool_types::{CompiledModuleId, ComponentInfo, MemoryType, ModuleInfo, TableType};
use std::marker::Model;
use std::sync::Arc;

/// An instance of a module that is asked for. The images are those of `info` at the page of the core's regions.
#[derive(Drop)]
pub struct ModuleCall {
    pub info: Arc<ModuleInfo>,
    pub images: Option<Arc<ModuleMemoryImages>>,
    /// The name of the compiled module, for the affinity of its slots. Slots for a module without one are wanted for nothing in particular.
    pub id: Option<CompiledModuleId>,
}

impl Model for ModuleCall {
    ghost use Rattle.pool_alloc.specs.PlainModules.{ModuleAsked};

    ghost Value = { ModuleAsked };

    ghost use Rattle.std.specs.Prelude.{option_map};
    ghost use Rattle.std.specs.Arc.{arc_value};

    ghost view = { λ m. record { info = arc_value m.info; images = option_map arc_value m.images; id = m.id } };
}

/// One memory that is asked for by itself. The image is one of it, at the page of the core's regions: it ends within the memory's
/// minimum.
#[derive(Drop)]
pub struct MemoryCall {
    pub ty: MemoryType,
    pub image: Option<Arc<MemoryImage>>,
    /// The memory of a compiled module that it is, where its slot may be affine to that.
    pub affine: Option<MemoryInModule>,
}

impl Model for MemoryCall {
    ghost use Rattle.pool_alloc.specs.PlainModules.{MemoryAsked};

    ghost Value = { MemoryAsked };

    ghost use Rattle.std.specs.Prelude.{option_map};
    ghost use Rattle.std.specs.Arc.{arc_value};

    ghost view = { λ m. record { ty = m.ty; image = option_map arc_value m.image; affine = m.affine } };
}

/// What a party holds after a call that was granted.
#[derive(Drop)]
pub enum Grant<P: Pages, H: GcHeap> {
    Instance(InstanceLease<P>),
    /// It holds nothing, and counts.
    Component,
    /// A memory that was asked for by itself.
    Memory(MemoryLease<P>),
    /// A table, likewise.
    Table(TableLease<P>),
    Stack(StackLease<P>),
    /// A heap, and the memory that it lies in.
    Heap(HeapLease<H>, MemoryLease<P>),
    /// A heap over a memory that was allocated before. That stays with whoever has it.
    HeapOver(HeapLease<H>),
}

/// A call of a party on the core.
#[derive(Drop)]
pub enum Call<P: Pages, H: GcHeap> {
    /// Gives the party its stripe.
    Key,
    /// Asks for an instance.
    Module(ModuleCall),
    /// Counts a component, where it breaks no rule.
    Component(ComponentInfo),
    /// Asks for a memory by itself. Whoever asks has found that no rule refuses its type: that isn't tested again.
    Memory(MemoryCall),
    /// Asks for a table by itself, whose minimum its type allows. One that is longer than the pool's tables is refused when it is made.
    Table(TableType),
    /// Asks for a fiber's stack.
    Stack,
    /// Asks for a heap of a garbage collector, with a memory of this type.
    Heap(MemoryType),
    /// Asks for one over the memory with this index, which whoever asks has. Only the index is noted.
    HeapOver(MemoryAllocationIndex),
    GiveBack(Grant<P, H>),
    /// Forgets what warm slots hold of a compiled module.
    Purge(CompiledModuleId),
    /// Gives the memory back that warm slots keep resident.
    Release,
}

/// The answer to a call, which comes with its last step.
#[derive(Drop)]
pub enum Outcome<P: Pages, H: GcHeap> {
    Key,
    Granted(Grant<P, H>),
    Returned,
    /// How many slots were purged.
    Purged(u64),
    /// How many bytes were released.
    Released(u64),
    Refused(AllocError),
}

/// What a call is about: what it asks for, or the object that it gives back by itself.
#[derive(Drop)]
pub enum Asked {
    /// An instance is given back, or nothing is asked for.
    Nothing,
    Module(ModuleCall),
    Memory(MemoryCall),
    Table(TableType),
    Stack,
    /// A heap with a memory of this type.
    Heap(MemoryType),
    /// A heap over the memory with this index.
    HeapOver(MemoryAllocationIndex),
}

/// What a call is to end with, as far as it went. A step that fails sets it.
#[derive(Clone, Copy, Debug, PartialEq, Eq)]
pub enum Ending {
    Granted,
    Returned,
    Refused(AllocError),
}

/// A slot that is to be freed, and how many bytes it keeps resident.
#[derive(Clone, Copy, Debug, PartialEq, Eq)]
pub struct FreedSlot {
    pub name: SlotName,
    pub bytes: usize,
}

/// A slot of which the region was taken, and what the region's unit tells since.
#[derive(Clone, Copy, Debug, PartialEq, Eq)]
pub struct TakenSlot {
    pub name: SlotName,
    pub numbers: RegionNumbers,
}

/// What is allocated for a request, one after the other.
#[derive(Drop)]
pub enum Object<P: Pages> {
    Memory(MemoryLease<P>),
    Table(TableLease<P>),
    Stack(StackLease<P>),
}

/// The step that a party makes next, with what it has taken for it.
#[derive(Drop)]
pub enum Phase<P: Pages, H: GcHeap> {
    /// No call is under way.
    Idle,
    /// Draw a number from the key counter.
    Key,
    /// Test the module, and reserve the lists of what it will be granted.
    Validate,
    /// Test whether stacks are enabled.
    TestStack,
    /// Test whether there is a collector. Where a memory is asked for with the heap, test its type, and reserve the list for it.
    TestHeap,
    CountInstance,
    /// Pick a slot from the shard that is so many after the home shard.
    Pick(u32),
    /// Take the whole next queue, which is as many after the home queue as the search has taken so far.
    TakeQueue,
    TakeRegion(SlotName),
    /// Empty an image slot of which nothing is known.
    Empty(TakenSlot, MemoryImageSlot<P>),
    Instantiate(TakenSlot, MemoryImageSlot<P>),
    /// Ask the limiter, and make the memory.
    MakeMemory(TakenSlot, MemoryImageSlot<P>),
    /// Ask the limiter, and make the table.
    MakeTable(TakenSlot, PageRegion<P>),
    CountObject(Object<P>),
    /// Take the heap of a slot out of the list of heaps, where the slot has one.
    TakeHeap(SlotName),
    /// Make a heap for a slot that had none.
    MakeHeap(TakenSlot),
    CountHeap(HeapLease<H>),
    /// Put a slot back into the list of heaps for which no heap could be made.
    PutNoHeap(TakenSlot),
    /// Put the region of a slot back after a failure. Nothing is known of a memory's.
    PutBack(TakenSlot, ImageSlot<P>),
    /// Free the slot then.
    FreeOne(SlotName),
    /// Count what is given back as no grant any more.
    UncountObject(Object<P>),
    /// Count a heap as no grant any more. This is the memory that was granted with it, if one was.
    UncountHeap(HeapLease<H>, Option<MemoryLease<P>>),
    /// Put it back into the list of heaps.
    PutHeap(HeapLease<H>, Option<MemoryLease<P>>),
    /// Free its slot then, and give its memory back after that.
    FreeHeap(SlotName, MemoryLease<P>),
    Reset(Object<P>),
    /// Append the local queue to the home queue.
    Merge,
    /// The next part of a flush of the local queue: decommit the next ranges of one slot; where there are none, of the
    /// memories first, then of the tables and then of the stacks: zero one by hand, where a decommit failed; put the region
    /// of one back; or free the slots of one shard.
    Flush,
    UncountInstance,
    /// Test the component that is asked for.
    ValidateComponent(ComponentInfo),
    CountComponent,
    UncountComponent,
    /// A step of a purge.
    Purge(PurgeCursor, PurgeStep<P>),
    /// A step of a release.
    Release(ReleaseStep<P>),
}

/// What a frame reserves, so that its steps take no memory: its queue, and the list of slots that it is to free.
#[derive(Drop)]
pub struct FrameLists<P: Pages> {
    pub local: DecommitQueue<P>,
    pub freed: ReservedList<FreedSlot>,
}

/// A party's place in the core: its home, its stripe, a queue of its own, and what its call has picked or taken.
#[derive(Drop)]
pub struct Frame<P: Pages, H: GcHeap> {
    /// The number of the party's home, of which its home shard and its home queue follow.
    pub home: u32,
    /// The stripe in which the party's memories lie.
    pub stripe: u32,
    /// What the call is about.
    pub asked: Asked,
    /// What the call is to end with.
    pub ending: Ending,
    /// What was granted so far, in order, or what is still to be given back: the ending says which.
    pub objects: InstanceLease<P>,
    /// How many queues the search for a slot has taken.
    pub queues: u32,
    /// The local queue. It is empty but while objects are given back or queues flushed.
    pub local: DecommitQueue<P>,
    /// The slots whose regions are back in their cells, and which aren't free yet.
    pub freed: ReservedList<FreedSlot>,
    pub phase: Phase<P, H>,
    /// How many steps the call under way made so far, or the last one. Counts modulo 2^64.
    pub step_count: u64,
}
