use crate::decommit_behavior::DecommitBehavior;

/// What the system offers to a pool.
#[derive(Clone, Copy, Debug, PartialEq, Eq)]
pub struct Offered {
    /// How many protection keys there are.
    pub keys: u32,
    /// Whether the system tells which pages are dirty.
    pub dirty_pages: bool,
    /// What a decommit leaves on a page.
    pub behaviour: DecommitBehavior,
}

impl Default for Offered {
    ghost use Rattle.pool_types.specs.Config.{IsDefaultOffered};

    ghost is_default = { IsDefaultOffered };

    fn default() -> Self {
        Offered {
            keys: 0,
            dirty_pages: false,
            behaviour: DecommitBehavior::RestoreOriginalMapping,
        }
    }
}
