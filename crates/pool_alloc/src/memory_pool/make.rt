//! A memory is made in its slot, if the limiter lets it.
ghost use Rattle.std.specs.Prelude.{◌≡◌, ◌^◌, ◌<◌, ◌≤◌, [], ◌∷◌, length, Bool, Result, Some, None};
ghost use Rattle.pool_types.specs.Count.{rounded_up};
ghost use Rattle.pool_types.specs.MemoryTypes.{minimum_byte_size, refused_limits};
ghost use Rattle.pool_limits.specs.Growth.{memory_answer};
ghost use Rattle.pool_limits.specs.LimiterTold.{after_answer};
ghost use Rattle.pool_limits.specs.Exchanges.{Exchanged, may_grow};
ghost use Rattle.pool_limits.specs.declared.errors.LimiterError.{LimiterError};
ghost use Rattle.pool_memory.specs.Making.{minimum_asked, maximum_asked, minimum_question, static_answer, static_limiter_answer};
ghost use Rattle.pool_memory.specs.Static.{CanHold};
ghost use Rattle.pool_alloc.specs.CanStep.{HasNext, CanMake};
ghost use Rattle.pool_alloc.specs.MemorySteps.{refusal_of};
ghost use Rattle.pool_alloc.specs.Modules.{IfAllocated};
ghost use Rattle.pool_alloc.specs.PageCallAnswers.{AsksForMemory};
ghost use Rattle.pool_alloc.specs.StepReads.{under};
ghost use Rattle.pool_alloc.specs.StepTable.{made_by, make_memory_row};
ghost use Rattle.pool_alloc.specs.Turns.{After, stepped};
ghost use Rattle.pool_alloc.specs.declared.pool_core.PoolCore.{PoolCore};

use crate::frame::{Asked, Frame, Object, Phase, TakenSlot};
use crate::leases::memory::MemoryLease;
use crate::pool_core::Settings;
use pool_images::MemoryImageSlot;
use pool_limits::ResourceLimiter;
use pool_memory::{Memory, MemoryError, StaticMemory};
use pool_pages::Pages;
use pool_slots::{AllocError, GcHeap, ImageSlot, MemoryAllocationIndex};
use pool_types::MemoryType;

// A memory in its slot, or the slot of a memory that is refused.
type Making<P> = Result<Memory<(), StaticMemory<P>>, (MemoryImageSlot<P>, MemoryError)>;

// Asks the limiter, and makes the memory.
#[inline(never)]
pub(crate) fn make_memory<P: Pages, H: GcHeap, L: ResourceLimiter>(
    settings: &Settings,
    frame: &mut Frame<P, H>,
    at: TakenSlot,
    held: MemoryImageSlot<P>,
    limiter: &mut L,
)
    requires next { HasNext frame.old.asked (length frame.old.objects.memories.items) }
    requires can { IfAllocated frame.old (CanMake settings.now held) }
    ensures { (answer : Result Bool LimiterError) × IfAllocated frame.old (AsksForMemory answer (L.told limiter.old) (L.told limiter.new)) × IfAllocated frame.old (λ decl. Exchanged L.leads (may_grow (minimum_question decl.ty) answer ∷ []) limiter.old limiter.new) × ((c : PoolCore P H) → ◌≡◌ {A = After P H} (record { core = under settings.now c.plan c; frame = frame.new; outcome = None }) (stepped (make_memory_row answer at held (under settings.now c.plan c) frame.old))) }
{
    let making = make_next_memory(settings, frame, held, limiter);
    was_made(frame, at, making)
}

// The memory that is allocated.
fn make_next_memory<P: Pages, H: GcHeap, L: ResourceLimiter>(
    settings: &Settings,
    frame: &Frame<P, H>,
    held: MemoryImageSlot<P>,
    limiter: &mut L,
) -> Making<P>
    requires next { HasNext frame.now.asked (length frame.now.objects.memories.items) }
    requires can { IfAllocated frame.now (CanMake settings.now held) }
    ensures asked { IfAllocated frame.now (AsksForMemory (static_limiter_answer result) (L.told limiter.old) (L.told limiter.new)) }
    ensures exchanged { IfAllocated frame.now (λ decl. Exchanged L.leads (may_grow (minimum_question decl.ty) (static_limiter_answer result) ∷ []) limiter.old limiter.new) }
    ensures value { IfAllocated frame.now (λ decl. result ≡ static_answer (static_limiter_answer result) decl.ty settings.now.max_memory_size held) }
{
    let memory = frame.objects.memories.len();
    match &frame.asked {
        Asked::Nothing | Asked::Table(_) | Asked::Stack | Asked::HeapOver(_) => unreachable!(),
        Asked::Module(call) => {
            let decl = &call.info.memories.as_slice()[memory];
            make_memory_of(&decl.ty, settings, held, limiter)
        }
        Asked::Memory(call) => make_memory_of(&call.ty, settings, held, limiter),
        Asked::Heap(ty) => make_memory_of(ty, settings, held, limiter),
    }
}

fn make_memory_of<P: Pages, L: ResourceLimiter>(
    ty: &MemoryType,
    settings: &Settings,
    held: MemoryImageSlot<P>,
    limiter: &mut L,
) -> Making<P>
    requires page_log2 { ty.now.page_size_log2 < 64 }
    requires limits { refused_limits ty.now.limits ≡ None }
    requires slot { minimum_byte_size ty.now < 2 ^ 64 → CanHold (minimum_byte_size ty.now) held }
    requires room { rounded_up held.region.page settings.now.max_memory_size ≤ held.static_size }
    ensures answer { static_limiter_answer result ≡ memory_answer (L.told limiter.old).rule (static_limiter_answer result) (minimum_asked ty.now) (maximum_asked ty.now) }
    ensures limiter { L.told limiter.new ≡ after_answer (static_limiter_answer result) (L.told limiter.old) }
    ensures exchanged { Exchanged L.leads (may_grow (minimum_question ty.now) (static_limiter_answer result) ∷ []) limiter.old limiter.new }
    ensures value { result ≡ static_answer (static_limiter_answer result) ty.now settings.now.max_memory_size held }
{
    Memory::new_static(
        ty,
        &settings.tunables,
        settings.max_memory_size,
        held,
        Some(limiter),
    )
}

// What comes after a making.
fn was_made<P: Pages, H: GcHeap>(frame: &mut Frame<P, H>, at: TakenSlot, making: Making<P>)
    ensures { (c : PoolCore P H) → ◌≡◌ {A = After P H} (record { core = c; frame = frame.new; outcome = None }) (stepped (made_by at making c frame.old)) }
{
    let phase = match making {
        Ok(memory) => Phase::CountObject(Object::Memory(MemoryLease {
            index: MemoryAllocationIndex(at.name.slot),
            memory,
            numbers: at.numbers,
        })),
        Err((mut held, error)) => {
            held.forget();
            frame.fail(refusal_of(error));
            Phase::PutBack(at, ImageSlot::Unknown(held))
        }
    };
    frame.go(phase)
}

// Why an allocation is refused whose memory isn't made.
fn refusal_of(error: MemoryError) -> AllocError
    ensures { result ≡ refusal_of error }
{
    match error {
        MemoryError::Memory => AllocError::Memory,
        MemoryError::Unsupported(rule) => AllocError::Unsupported(rule),
        MemoryError::LimiterDenied { min } => AllocError::LimiterDenied { table: false, min },
        MemoryError::LimiterFault(error) => AllocError::LimiterFault(error),
        MemoryError::PageFault => AllocError::PageFault,
    }
}
