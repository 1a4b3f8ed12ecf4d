ghost use Rattle.std.specs.Prelude.{◌≡◌, Some, None, OnOk, IfErr};
ghost use Rattle.pool_types.specs.MemoryTypes.{refused_limits};

use crate::module_types::{IndexType, Limits};
use crate::unsupported::Unsupported;

/// What the elements of a table are.
#[derive(Clone, Copy, Debug, PartialEq, Eq)]
pub enum TableElementType {
    Func,
    GcRef,
    Cont,
}

/// The type of a table. Its limits are numbers of elements.
#[derive(Clone, Copy, Debug, PartialEq, Eq)]
pub struct TableType {
    pub idx_type: IndexType,
    pub limits: Limits,
    pub element: TableElementType,
}

impl TableType {
    /// Refuses exactly a minimum above the maximum.
    pub fn check(&self) -> Result<(), Unsupported>
        ensures ok { OnOk result (refused_limits self.now.limits ≡ None) }
        ensures err { IfErr result (λ e. refused_limits self.now.limits ≡ Some e) }
    {
        self.limits.check()
    }
}
