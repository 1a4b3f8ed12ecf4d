ghost use Rattle.std.specs.Prelude.{◌≡◌, ℕ, ◌+◌, ◌^◌, ◌<◌, if◌then◌else◌, IfOk, true, false, not, [], ◌∷◌, length};
ghost use Rattle.std.specs.Thread.{IsSync};
ghost use Rattle.pool_hall.specs.declared.unit_name.UnitName.{UnitName};
ghost use Rattle.pool_hall.specs.declared.unit_name.SlotKind.TheVariants.{Memory};
ghost use Rattle.pool_hall.specs.Sum.{one_if};
ghost use Rattle.pool_hall.specs.Unit.{same, times, pick_unit};
ghost use Rattle.pool_hall.specs.Seat.{made_with, limits_of, view, IsSeatOf, IsFree};

use pool_hall::{Hall, HallSeat, Part};
use std::alloc::{AllocError, Global};
use std::sync::Wait;
use std::test::*;
use std::thread;
use std::thread::Threads;

// One slot: free, or out with the seat that has its pick unit. Its count is how often it was picked.
#[derive(Clone, Copy)]
struct Slot {
    number: u32,
    used: bool,
    picks: u64,
}

impl Part for Slot {
    ghost use Rattle.std.specs.Prelude.{◌≡◌, if◌then◌else◌, false, [], ◌∷◌};
    ghost use Rattle.pool_hall.specs.declared.unit_name.SlotKind.TheVariants.{Memory};
    ghost use Rattle.pool_hall.specs.Unit.{pick_unit};

    ghost meaning = { record { fits = λ parts limits p x. x.number ≡ p; away = λ x. if x.used then pick_unit Memory x.number ∷ [] else []; kept = λ x. []; counts = λ x. x.picks ∷ []; steady = λ x. false; topped = λ x. false; place = λ parts limits u. u.slot } };
}

impl Slot {
    fn pick(&mut self) -> bool
        ensures picked { result ≡ not self.old.used }
        ensures used { self.new.used ≡ true }
        ensures same { self.new.number ≡ self.old.number }
        ensures small { self.new.picks < 2 ^ 64 }
    {
        let free = !self.used;
        self.used = true;
        self.picks = self.picks.wrapping_add(u64::from(free));
        free
    }

    fn free(&mut self)
        ensures used { self.new.used ≡ false }
        ensures same { self.new.number ≡ self.old.number }
        ensures small { self.new.picks < 2 ^ 64 }
    {
        self.used = false;
        self.picks = self.picks.wrapping_add(0);
    }
}

// Picks the slot where it is free.
fn pick<R: Wait>(rt: &R, hall: &Hall<Slot>, seat: &mut HallSeat<Slot>, place: u32) -> bool
    requires own { IsSeatOf hall.now seat.old × IsFree seat.old }
    requires place { place < length (made_with hall.now) }
    ensures own { IsSeatOf hall.now seat.new × IsFree seat.new }
    ensures units { (u : UnitName) → times u (view seat.new).units ≡ times u (view seat.old).units + (if result then one_if (same u (pick_unit Memory place)) else 0) }
    ensures portions { (view seat.new).portions ≡ (view seat.old).portions }
{
    hall.take(rt, seat, place);
    let picked = seat.part(hall).pick();
    hall.put(seat);
    picked
}

// Gives back the slot, whose pick unit is all that the seat has.
fn free<R: Wait>(rt: &R, hall: &Hall<Slot>, seat: &mut HallSeat<Slot>, place: u32)
    requires own { IsSeatOf hall.now seat.old × IsFree seat.old }
    requires place { place < length (made_with hall.now) }
    requires one { (u : UnitName) → times u (view seat.old).units ≡ one_if (same u (pick_unit Memory place)) }
    ensures own { IsSeatOf hall.now seat.new × IsFree seat.new }
    ensures none { (view seat.new).units ≡ [] }
    ensures portions { (view seat.new).portions ≡ (view seat.old).portions }
{
    hall.take(rt, seat, place);
    seat.part(hall).free();
    hall.put(seat);
}

// Picks the slot and gives it back, where it is free.
fn turn<R: Wait>(rt: &R, hall: &Hall<Slot>, seat: &mut HallSeat<Slot>, place: u32) -> bool
    requires own { IsSeatOf hall.now seat.old × IsFree seat.old }
    requires place { place < length (made_with hall.now) }
    requires none { (view seat.old).units ≡ [] }
    ensures own { IsSeatOf hall.now seat.new × IsFree seat.new }
    ensures none { (view seat.new).units ≡ [] }
    ensures portions { (view seat.new).portions ≡ (view seat.old).portions }
{
    if !pick(rt, hall, seat, place) {
        return false;
    }
    free(rt, hall, seat, place);
    true
}

// Takes turns at two slots, and adds one for each turn.
fn turns<R: Wait>(
    rt: &R,
    hall: &Hall<Slot>,
    mut seat: HallSeat<Slot>,
    count: u32,
) -> (HallSeat<Slot>, u64)
    requires own { IsSeatOf hall.now seat × IsFree seat }
    requires places { (1 < length (made_with hall.now)) × (0 < length (limits_of hall.now)) }
    requires none { (view seat).units ≡ [] }
    ensures own { IsSeatOf hall.now result.0 × IsFree result.0 }
    ensures none { (view result.0).units ≡ [] }
    ensures portions { (view result.0).portions ≡ (view seat).portions }
{
    let mut picked: u64 = 0;
    for i in 0..count {
        if turn(rt, hall, &mut seat, i % 2) {
            picked = picked.wrapping_add(1);
        }
        hall.add(&mut seat, 0);
    }
    (seat, picked)
}

fn both<R: Threads + Wait + Sync>(
    rt: &R,
    hall: &Hall<Slot>,
    one: HallSeat<Slot>,
    other: HallSeat<Slot>,
    count: u32,
) -> ((HallSeat<Slot>, u64), (HallSeat<Slot>, u64))
    requires own { IsSeatOf hall.now one × IsFree one × IsSeatOf hall.now other × IsFree other }
    requires places { (1 < length (made_with hall.now)) × (0 < length (limits_of hall.now)) }
    requires none { ((view one).units ≡ []) × ((view other).units ≡ []) }
    ensures own { IsSeatOf hall.now result.0.0 × IsFree result.0.0 × IsSeatOf hall.now result.1.0 × IsFree result.1.0 }
    ensures none { ((view result.0.0).units ≡ []) × ((view result.1.0).units ≡ []) }
    ensures portions { ((view result.0.0).portions ≡ (view one).portions) × ((view result.1.0).portions ≡ (view other).portions) }
{
    thread::join(
        rt,
        move || -> (HallSeat<Slot>, u64)
            requires { IsSync R.row × IsSeatOf hall.now one × IsFree one × (1 < length (made_with hall.now)) × (0 < length (limits_of hall.now)) × ((view one).units ≡ []) }
            ensures { IsSeatOf hall.entry.now result.0 × IsFree result.0 × ((view result.0).units ≡ []) × ((view result.0).portions ≡ (view one).portions) }
        { turns(rt, hall, one, count) },
        move || -> (HallSeat<Slot>, u64)
            requires { IsSync R.row × IsSeatOf hall.now other × IsFree other × (1 < length (made_with hall.now)) × (0 < length (limits_of hall.now)) × ((view other).units ≡ []) }
            ensures { IsSeatOf hall.entry.now result.0 × IsFree result.0 × ((view result.0).units ≡ []) × ((view result.0).portions ≡ (view other).portions) }
        { turns(rt, hall, other, count) },
    )
}

fn slots(alloc: Global) -> Result<Vec<Slot>, AllocError>
    ensures { IfOk result (λ v. v.items ≡ record { number = 0; used = false; picks = 0 } ∷ record { number = 1; used = false; picks = 0 } ∷ []) }
{
    let mut slots = Vec::new(alloc);
    slots.push(Slot {
        number: 0,
        used: false,
        picks: 0,
    })?;
    slots.push(Slot {
        number: 1,
        used: false,
        picks: 0,
    })?;
    Ok(slots)
}

const TURNS: u32 = 20_000;

#[test]
fn two_threads_take_turns(rt: HostRuntime) -> Result<(), Fail> {
    let limits = vec![in rt.alloc(); 10u64]?;
    let (hall, mut seat) = Hall::new(rt.alloc(), slots(rt.alloc())?, limits, 1)?;
    let other = hall.split(&mut seat, 1000);
    let ((mut seat, here), (other, there)) = both(&rt, &hall, seat, other, TURNS);
    hall.join(&mut seat, other);
    let added = hall.load(&mut seat, 0);
    let slots = hall.close(seat);
    assert!(rt; added == 2 * u64::from(TURNS));
    assert!(rt; slots.len() == 2 && !slots[0].used && !slots[1].used);
    assert!(rt; slots[0].picks.wrapping_add(slots[1].picks) == here.wrapping_add(there));
    Ok(())
}

#[test]
fn a_counter_counts(rt: HostRuntime) -> Result<(), Fail> {
    let limits = vec![in rt.alloc(); 1u64; 2]?;
    let (hall, mut seat) = Hall::<Slot>::new(rt.alloc(), Vec::new(rt.alloc()), limits, 0)?;
    let first = hall.add(&mut seat, 1);
    let second = hall.add(&mut seat, 1);
    hall.subtract(&mut seat, 1);
    let left = hall.load(&mut seat, 1);
    let other = hall.load(&mut seat, 0);
    let slots = hall.close(seat);
    assert!(rt; first == 0 && second == 1 && left == 1 && other == 0 && slots.is_empty());
    Ok(())
}
