//! How a call begins in a frame, and what it is about.
ghost use Rattle.std.specs.Prelude.{◌≡◌, ◌<◌, ◌^◌, length, nat_lt, if◌then◌else◌};
ghost use Rattle.pool_pages.specs.MakerTold.{MakerTold};
ghost use Rattle.pool_alloc.specs.BetweenSteps.{IsFrame};
ghost use Rattle.pool_alloc.specs.Calls.{IsIdle, MayBegin, begun_call, gives_back};
ghost use Rattle.pool_slots.specs.declared.plan.Plan.{Plan};
ghost use Rattle.pool_alloc.specs.declared.pool_core.Settings.{Settings};
ghost use Rattle.pool_alloc.specs.PoolTotals.{calls_in_frame, calls_in_phase, calls_of_heap_memory, calls_of_object};
ghost use Rattle.pool_alloc.specs.StepReads.{memories_wanted, wanted, tables_wanted, stacks_wanted, heaps_wanted, kind_last, kind_next, wanted_of};
ghost use Rattle.pool_alloc.specs.Objects.{objects_wanted};

use crate::frame::{Asked, Call, Ending, Frame, Grant, MemoryCall, Object, Phase};
use crate::leases::memory::MemoryLease;
use crate::purge::{PurgeCursor, PurgeStep};
use crate::release::ReleaseStep;
use pool_index::{MemoryInModule, SlotKind};
use pool_pages::{PageCalls, Pages};
use pool_slots::GcHeap;
use pool_types::DefinedMemoryIndex;

impl<P: Pages, H: GcHeap> Frame<P, H> {
    /// Begins a call. Takes no memory.
    pub fn begin(&mut self, call: Call<P, H>)
        requires { IsIdle self.old }
        ensures value { self.new ≡ begun_call call self.old }
        ensures sound { (maker : MakerTold) (s : Settings) (plan : Plan) → IsFrame maker s plan self.old → MayBegin maker s plan call self.old → IsFrame maker s plan self.new }
    {
        match call {
            Call::Key => {
                self.enter(Phase::Key);
                self.step_count = 0;
            }
            Call::Module(module) => {
                self.asked = Asked::Module(module);
                self.ending = Ending::Granted;
                self.queues = 0;
                self.enter(Phase::Validate);
                self.step_count = 0;
            }
            Call::Component(info) => {
                self.ending = Ending::Granted;
                self.enter(Phase::ValidateComponent(info));
                self.step_count = 0;
            }
            Call::Memory(memory) => {
                self.asked = Asked::Memory(memory);
                self.pick();
            }
            Call::Table(ty) => {
                self.asked = Asked::Table(ty);
                self.pick();
            }
            Call::Stack => {
                self.asked = Asked::Stack;
                self.ending = Ending::Granted;
                self.queues = 0;
                self.enter(Phase::TestStack);
                self.step_count = 0;
            }
            Call::Heap(ty) => {
                self.asked = Asked::Heap(ty);
                self.ending = Ending::Granted;
                self.queues = 0;
                self.enter(Phase::TestHeap);
                self.step_count = 0;
            }
            Call::HeapOver(memory) => {
                self.asked = Asked::HeapOver(memory);
                self.ending = Ending::Granted;
                self.queues = 0;
                self.enter(Phase::TestHeap);
                self.step_count = 0;
            }
            Call::GiveBack(grant) => self.give_back(grant),
            Call::Purge(id) => {
                self.enter(Phase::Purge(PurgeCursor::new(id), PurgeStep::Pick(0)));
                self.step_count = 0;
            }
            Call::Release => {
                self.enter(Phase::Release(ReleaseStep::Reserve));
                self.step_count = 0;
            }
        }
    }

    // A call for an object by itself begins with the search for a slot. Its type was tested by whoever asks.
    fn pick(&mut self)
        ensures { self.new ≡ record self.old { ending = Ending.Granted; queues = 0; phase = Phase.Pick 0; step_count = 0 } }
    {
        self.ending = Ending::Granted;
        self.queues = 0;
        self.enter(Phase::Pick(0));
        self.step_count = 0;
    }

    // The objects of an instance are given back in order, and then the instance. A component is counted off, and a memory, a table
    // or a stack is given back at once. A heap is given back, and then the memory that was granted with it.
    fn give_back(&mut self, grant: Grant<P, H>)
        ensures { self.new ≡ gives_back grant self.old }
    {
        match grant {
            Grant::Instance(lease) => {
                self.asked = Asked::Nothing;
                self.objects = lease;
                self.ending = Ending::Returned;
                self.return_next(&mut None);
                self.step_count = 0;
            }
            Grant::Component => {
                self.ending = Ending::Returned;
                self.enter(Phase::UncountComponent);
                self.step_count = 0;
            }
            Grant::Memory(lease) => {
                self.asked = Asked::Memory(MemoryCall {
                    ty: *lease.memory.ty(),
                    image: None,
                    affine: None,
                });
                self.uncount(Object::Memory(lease));
            }
            Grant::Table(lease) => {
                self.asked = Asked::Table(lease.type_now());
                self.uncount(Object::Table(lease));
            }
            Grant::Stack(lease) => {
                self.asked = Asked::Stack;
                self.uncount(Object::Stack(lease));
            }
            Grant::Heap(lease, memory) => {
                self.asked = Asked::Heap(*memory.memory.ty());
                self.ending = Ending::Returned;
                self.enter(Phase::UncountHeap(lease, Some(memory)));
                self.step_count = 0;
            }
            Grant::HeapOver(lease) => {
                self.asked = Asked::HeapOver(lease.memory());
                self.ending = Ending::Returned;
                self.enter(Phase::UncountHeap(lease, None));
                self.step_count = 0;
            }
        }
    }

    // An object is given back by itself.
    fn uncount(&mut self, object: Object<P>)
        ensures { self.new ≡ record self.old { ending = Ending.Returned; phase = Phase.UncountObject object; step_count = 0 } }
    {
        self.ending = Ending::Returned;
        self.enter(Phase::UncountObject(object));
        self.step_count = 0;
    }

    /// How many steps the call under way made so far, or the last one. Counts modulo 2^64.
    pub fn steps(&self) -> u64
        ensures { result ≡ self.now.step_count }
    {
        self.step_count
    }

    /// The calls made so far on the regions that the call under way has.
    pub fn page_calls(&self) -> PageCalls
        ensures { result ≡ calls_in_frame self.now }
    {
        let waiting = self.local.page_calls().plus(self.phase.page_calls());
        self.objects.page_calls().plus(waiting)
    }

    // How many memories the module has that is asked for, and how many tables.
    pub(crate) fn memories_wanted(&self) -> usize
        ensures { result ≡ length (memories_wanted self.now.asked) }
    {
        match &self.asked {
            Asked::Module(call) => call.info.memories.len(),
            Asked::Memory(_) | Asked::Heap(_) => 1,
            _ => 0,
        }
    }

    pub(crate) fn tables_wanted(&self) -> usize
        ensures { result ≡ length (tables_wanted self.now.asked) }
    {
        match &self.asked {
            Asked::Module(call) => call.info.tables.len(),
            Asked::Table(_) => 1,
            _ => 0,
        }
    }

    // Whether a stack is asked for, as a number of stacks.
    fn stacks_wanted(&self) -> u128
        ensures { result ≡ stacks_wanted self.now.asked }
    {
        match &self.asked {
            Asked::Stack => 1,
            _ => 0,
        }
    }

    // Whether a heap is, likewise.
    fn heaps_wanted(&self) -> u128
        ensures { result ≡ heaps_wanted self.now.asked }
    {
        match &self.asked {
            Asked::Heap(_) | Asked::HeapOver(_) => 1,
            _ => 0,
        }
    }

    // How many objects the request is for.
    pub(crate) fn objects_wanted(&self) -> u128
        ensures { result ≡ objects_wanted self.now.asked }
    {
        let memories = self.memories_wanted() as u128;
        let tables = self.tables_wanted() as u128;
        memories + tables + self.stacks_wanted() + self.heaps_wanted()
    }

    // What is allocated: a stack, or a memory until there are all, and then a table or the heap.
    pub(crate) fn kind_next(&self) -> SlotKind
        ensures { result ≡ kind_next self.now }
    {
        match &self.asked {
            Asked::Stack => SlotKind::Stack,
            _ => self.object_next(),
        }
    }

    fn object_next(&self) -> SlotKind
        ensures { result ≡ (if nat_lt (length self.now.objects.memories.items) (length (memories_wanted self.now.asked)) then SlotKind.Memory else kind_last self.now.asked) }
    {
        if self.objects.memories.len() < self.memories_wanted() {
            SlotKind::Memory
        } else {
            self.kind_last()
        }
    }

    fn kind_last(&self) -> SlotKind
        ensures { result ≡ kind_last self.now.asked }
    {
        match &self.asked {
            Asked::Heap(_) | Asked::HeapOver(_) => SlotKind::Heap,
            _ => SlotKind::Table,
        }
    }

    // The memory that is allocated, where slots may be affine to it.
    pub(crate) fn wanted(&self) -> Option<MemoryInModule>
        requires { length self.now.objects.memories.items < 2 ^ 32 }
        ensures { result ≡ wanted self.now }
    {
        match self.kind_next() {
            SlotKind::Memory => self.memory_wanted(),
            _ => None,
        }
    }

    fn memory_wanted(&self) -> Option<MemoryInModule>
        requires { length self.now.objects.memories.items < 2 ^ 32 }
        ensures { result ≡ wanted_of self.now.asked (length self.now.objects.memories.items) }
    {
        let index = DefinedMemoryIndex(self.objects.memories.len() as u32);
        match &self.asked {
            Asked::Module(call) => match call.id {
                None => None,
                Some(id) => Some(MemoryInModule(id, index)),
            },
            Asked::Memory(call) => call.affine,
            _ => None,
        }
    }
}

impl<P: Pages, H: GcHeap> Phase<P, H> {
    // The calls made so far on the region that the next step is made on.
    fn page_calls(&self) -> PageCalls
        ensures { result ≡ calls_in_phase self.now }
    {
        match self {
            Phase::Empty(_, held) => held.region().calls(),
            Phase::Instantiate(_, held) => held.region().calls(),
            Phase::MakeMemory(_, held) => held.region().calls(),
            Phase::MakeTable(_, region) => region.calls(),
            Phase::PutBack(_, held) => held.page_calls(),
            Phase::CountObject(object) => object.page_calls(),
            Phase::UncountObject(object) => object.page_calls(),
            Phase::UncountHeap(_, memory) => memory_calls(memory),
            Phase::PutHeap(_, memory) => memory_calls(memory),
            Phase::FreeHeap(_, memory) => memory.page_calls(),
            Phase::Reset(object) => object.page_calls(),
            Phase::Purge(_, step) => step.page_calls(),
            Phase::Release(step) => step.page_calls(),
            _ => PageCalls::none(),
        }
    }
}

// The calls made so far on the region of the memory that was granted with a heap, if one was.
fn memory_calls<P: Pages>(memory: &Option<MemoryLease<P>>) -> PageCalls
    ensures { result ≡ calls_of_heap_memory memory.now }
{
    match memory {
        Some(lease) => lease.page_calls(),
        None => PageCalls::none(),
    }
}

impl<P: Pages> Object<P> {
    // The calls made so far on its region.
    fn page_calls(&self) -> PageCalls
        ensures { result ≡ calls_of_object self.now }
    {
        match self {
            Object::Memory(lease) => lease.page_calls(),
            Object::Table(lease) => lease.page_calls(),
            Object::Stack(lease) => lease.page_calls(),
        }
    }
}
