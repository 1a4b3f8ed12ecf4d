//! The laws of the sums that the rule of a hall speaks of. Every kind of step rests on these alone.
ghost use Rattle.std.specs.Prelude.{ℕ};
ghost use Rattle.pool_hall.specs.declared.unit_name.UnitName.{UnitName};
ghost use Rattle.pool_hall.specs.Sum.{ChangesWithOne, GrowsWithOne, StaysAtTakeover};
ghost use Rattle.pool_hall.specs.Unit.{times};
ghost use Rattle.pool_hall.specs.Tally.{Tally, number};

use crate::part::Part;

/// Each number of the views, and how often the parts keep a unit, summed up: the sum changes by what one changes, a
/// new view adds its own, and where one view takes over the numbers of another the sum stays. This does nothing.
pub fn sums_follow<T: Part>()
    ensures change { (t : Tally) → ChangesWithOne (number {T = T} t) }
    ensures kept { (u : UnitName) → ChangesWithOne {X = T} (λ x. times u (T.meaning.kept x)) }
    ensures new { (t : Tally) → GrowsWithOne (number {T = T} t) }
    ensures takeover { (t : Tally) → StaysAtTakeover (number {T = T} t) }
{}
