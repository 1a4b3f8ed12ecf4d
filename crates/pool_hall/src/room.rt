//! The list that closing a hall answers, reserved when the hall is made.
ghost use Rattle.std.specs.Prelude.{◌≡◌, ℕ, ◌≤◌, List, [], vec_capacity};

use atomic_table::TableRule;

/// The one slot has an empty list with room for as many parts as the key says.
pub struct Vacant;

impl<T> TableRule<Vec<T>, (), usize> for Vacant {
    ghost use Rattle.pool_hall.specs.Room.{IsVacant};

    ghost holds = { λ n. IsVacant n };

    ghost first = { λ _. tt };
}
