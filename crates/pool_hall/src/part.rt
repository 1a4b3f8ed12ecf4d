//! What a hall keeps behind a lock.

/// A value behind a lock of a hall. `meaning` says what clauses see of it. Threads may share a hall where its parts can be
/// sent.
pub trait Part: Drop {
    ghost use Rattle.pool_hall.specs.Meaning.{Meaning};

    ghost meaning: { Meaning Self };
}
