//! Index allocators, by one caller and by two threads.
ghost use Rattle.std.specs.Prelude.{◌≡◌, ℕ, ◌<◌, ◌≤◌, [], OnOk, length, map};
ghost use Rattle.std.specs.Thread.{IsSync};
ghost use Rattle.pool_hall.specs.declared.unit_name.UnitName.{UnitName};
ghost use Rattle.pool_hall.specs.Seat.{view};
ghost use Rattle.pool_index.specs.Allocator.{IsIndexSeat};
ghost use Rattle.pool_hall.specs.declared.unit_name.SlotKind.TheVariants.{Memory};
ghost use Rattle.pool_hall.specs.Unit.{pick_unit, times};
ghost use Rattle.pool_index.specs.Freed.{HasAll};

use pool_index::{IndexSeat, MemoryInModule, ModuleAffinityIndexAllocator, ShardId, SlotId};
use pool_types::{CompiledModuleId, DefinedMemoryIndex};
use std::alloc::Global;
use std::sync::Wait;
use std::test::*;
use std::thread;
use std::thread::Threads;

// Allocates a slot for a module's memory, and keeps it among those that are held.
fn allocate<R: Wait>(
    rt: &R,
    allocator: &ModuleAffinityIndexAllocator,
    seat: &mut IndexSeat,
    held: &mut Vec<SlotId>,
    module: u64,
) -> Result<Option<u32>, Fail>
    requires seat { IsIndexSeat allocator.now seat.old }
    requires held { HasAll (map (λ s. pick_unit Memory s.0) held.old.items) (view seat.old) }
    ensures seat { OnOk result (IsIndexSeat allocator.now seat.new) }
    ensures held { OnOk result (HasAll (map (λ s. pick_unit Memory s.0) held.new.items) (view seat.new)) }
{
    let memory = MemoryInModule(CompiledModuleId(module), DefinedMemoryIndex(0));
    match allocator.alloc(rt, seat, ShardId(0), Some(memory)) {
        Ok(slot) => {
            held.push(slot)?;
            Ok(Some(slot.0))
        }
        Err(_) => Ok(None),
    }
}

// Frees the slot at this place among those that are held.
fn free_at<R: Wait>(
    rt: &R,
    allocator: &ModuleAffinityIndexAllocator,
    seat: &mut IndexSeat,
    held: &mut Vec<SlotId>,
    at: usize,
)
    requires seat { IsIndexSeat allocator.now seat.old }
    requires held { HasAll (map (λ s. pick_unit Memory s.0) held.old.items) (view seat.old) }
    requires inside { at < length held.old.items }
    ensures seat { IsIndexSeat allocator.now seat.new }
    ensures held { HasAll (map (λ s. pick_unit Memory s.0) held.new.items) (view seat.new) }
{
    let slot = held.remove(at);
    allocator.free(rt, seat, slot, 0);
}

// Each pair allocates a slot for a module, or, where that is 0, frees the slot at a place among those that are held. Answers
// which slots were allocated.
fn play<R: Wait>(
    rt: &R,
    alloc: Global,
    allocator: &ModuleAffinityIndexAllocator,
    seat: &mut IndexSeat,
    calls: &[(u64, usize)],
) -> Result<Vec<Option<u32>>, Fail>
    requires seat { IsIndexSeat allocator.now seat.old }
    ensures seat { OnOk result (IsIndexSeat allocator.now seat.new) }
{
    let mut held = Vec::new(alloc);
    let mut picked = Vec::new(alloc);
    for at in 0..calls.len() {
        let (module, place) = calls[at];
        if module != 0 {
            picked.push(allocate(rt, allocator, seat, &mut held, module)?)?;
        } else if place < held.len() {
            free_at(rt, allocator, seat, &mut held, place);
        }
    }
    Ok(picked)
}

// A slot goes first to a memory that freed it. Other memories get a cold one while fewer than two are warm, and then the one
// that is warm longest. In the end three are warm.
#[test]
fn affine_slots_first(rt: HostRuntime) -> Result<(), Fail> {
    let alloc = rt.alloc();
    let (a, b, c, free) = ((1, 0), (2, 0), (3, 0), (0, 0));
    let calls = [
        a,
        free,
        b,
        free,
        c,
        free,
        b,
        a,
        free,
        free,
        a,
        b,
        c,
        (0, 1),
        free,
        free,
        (4, 0),
        (5, 0),
        (6, 0),
        free,
        free,
        free,
        c,
    ];
    let (allocator, mut seat) = ModuleAffinityIndexAllocator::new(alloc, 10, 2, 1)?;
    let picked = play(&rt, alloc, &allocator, &mut seat, calls.as_slice())?;
    let mut wanted = Vec::new(alloc);
    for slot in [0, 1, 0, 1, 2, 2, 1, 0, 1, 2, 3, 0] {
        wanted.push(Some(slot))?;
    }
    assert_eq!(rt; picked.as_slice(), wanted.as_slice());
    let taken = allocator.take_resident_warm_slots(alloc, &rt, &mut seat)?;
    let slots = [(SlotId(1), 0), (SlotId(2), 0), (SlotId(3), 0)];
    assert_eq!(rt; taken.as_slice(), slots.as_slice());
    allocator.free_many(&rt, &mut seat, taken.as_slice());
    assert_eq!(rt; allocator.unused_warm_slots(&rt, &mut seat), 3);
    assert_eq!(rt; allocator.unused_bytes_resident(&rt, &mut seat), 0);
    assert!(rt; !allocator.is_empty(&rt, &mut seat));

    // of two slots that one memory freed each is found by affinity once, whatever may stay warm
    let (id, memory) = (CompiledModuleId(1), DefinedMemoryIndex(0));
    for warm in 0..3 {
        let (allocator, mut seat) = ModuleAffinityIndexAllocator::new_with_shard_count(
            alloc, 100, warm, 1,
        )?;
        play(
            &rt,
            alloc,
            &allocator,
            &mut seat,
            [a, a, free, free].as_slice(),
        )?;
        let first = allocator.alloc_affine_and_clear_affinity(&rt, &mut seat, id, memory);
        let second = allocator.alloc_affine_and_clear_affinity(&rt, &mut seat, id, memory);
        let third = allocator.alloc_affine_and_clear_affinity(&rt, &mut seat, id, memory);
        let found = [first.is_some(), second.is_some(), third.is_some()];
        assert_eq!(rt; found, [true, true, false]);
    }
    Ok(())
}

// Allocates a slot and frees it, so often. A slot that was refused is not counted.
fn turns<R: Wait>(
    rt: &R,
    allocator: &ModuleAffinityIndexAllocator,
    mut seat: IndexSeat,
    home: u32,
    count: u32,
) -> (IndexSeat, u32)
    requires seat { IsIndexSeat allocator.now seat }
    ensures seat { IsIndexSeat allocator.now result.0 }
    ensures units { (u : UnitName) → times u (view result.0).units ≡ times u (view seat).units }
    ensures portions { (view result.0).portions ≡ (view seat).portions }
{
    let mut taken: u32 = 0;
    for _ in 0..count {
        if turn(rt, allocator, &mut seat, home) {
            taken = taken.wrapping_add(1);
        }
    }
    (seat, taken)
}

fn turn<R: Wait>(
    rt: &R,
    allocator: &ModuleAffinityIndexAllocator,
    seat: &mut IndexSeat,
    home: u32,
) -> bool
    requires seat { IsIndexSeat allocator.now seat.old }
    ensures seat { IsIndexSeat allocator.now seat.new }
    ensures units { (u : UnitName) → times u (view seat.new).units ≡ times u (view seat.old).units }
    ensures portions { (view seat.new).portions ≡ (view seat.old).portions }
{
    let Ok(slot) = allocator.alloc(rt, seat, ShardId(home), None) else {
        return false;
    };
    allocator.free(rt, seat, slot, 4096);
    true
}

fn both<R: Threads + Wait + Sync>(
    rt: &R,
    allocator: &ModuleAffinityIndexAllocator,
    one: IndexSeat,
    other: IndexSeat,
    count: u32,
) -> ((IndexSeat, u32), (IndexSeat, u32))
    requires seats { IsIndexSeat allocator.now one × IsIndexSeat allocator.now other }
    ensures seats { IsIndexSeat allocator.now result.0.0 × IsIndexSeat allocator.now result.1.0 }
    ensures one { (u : UnitName) → times u (view result.0.0).units ≡ times u (view one).units }
    ensures other { (u : UnitName) → times u (view result.1.0).units ≡ times u (view other).units }
    ensures portions { ((view result.0.0).portions ≡ (view one).portions) × ((view result.1.0).portions ≡ (view other).portions) }
{
    thread::join(
        rt,
        move || -> (IndexSeat, u32)
            requires { IsSync R.row × IsIndexSeat allocator.now one }
            ensures { IsIndexSeat allocator.entry.now result.0 × ((u : UnitName) → times u (view result.0).units ≡ times u (view one).units) × ((view result.0).portions ≡ (view one).portions) }
        { turns(rt, allocator, one, 0, count) },
        move || -> (IndexSeat, u32)
            requires { IsSync R.row × IsIndexSeat allocator.now other }
            ensures { IsIndexSeat allocator.entry.now result.0 × ((u : UnitName) → times u (view result.0).units ≡ times u (view other).units) × ((view result.0).portions ≡ (view other).portions) }
        { turns(rt, allocator, other, 1, count) },
    )
}

const TURNS: u32 = 20_000;

#[test]
fn two_threads_take_turns(rt: HostRuntime) -> Result<(), Fail> {
    let (allocator, mut seat) = ModuleAffinityIndexAllocator::new(rt.alloc(), 200, 10, 3)?;
    let other = allocator.hall().split(&mut seat, 1000);
    let ((mut seat, here), (other, there)) = both(&rt, &allocator, seat, other, TURNS);
    allocator.hall().join(&mut seat, other);
    let shards = allocator.into_hall().close(seat);
    assert!(rt; here == TURNS && there == TURNS && shards.len() == 3);
    for shard in shards.iter() {
        assert!(rt; shard.is_empty());
    }
    Ok(())
}
