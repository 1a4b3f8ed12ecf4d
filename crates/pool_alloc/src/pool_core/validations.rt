ghost use Rattle.std.specs.Prelude.{◌≡◌, ◌<◌};
ghost use Rattle.pool_alloc.specs.CanStep.{CanValidate};
ghost use Rattle.pool_alloc.specs.Refusals.{module_refused, type_refused, component_refused};
ghost use Rattle.pool_alloc.specs.Requests.{refused_by};

use crate::memory_pool::rules::type_refused;
use crate::pool_core::PoolCore;
use crate::validate::module_refused;
use crate::validate::sizes::component_refused;
use pool_pages::Pages;
use pool_slots::{AllocError, GcHeap};
use pool_types::{ComponentInfo, MemoryType, ModuleInfo, Unsupported};

// What the pool refuses whatever is live. The refusals tell the first rule that is broken. No call takes memory.
impl<P: Pages, H: GcHeap> PoolCore<P, H> {
    /// Tests a component: how many core instances, memories and tables it has, and how many bytes it takes.
    pub fn validate_component(&self, info: &ComponentInfo) -> Result<(), AllocError>
        ensures { result ≡ refused_by (component_refused self.now.settings info.now) }
    {
        refused_by(component_refused(&self.settings, info))
    }

    /// Tests a module: its memories with their images, its tables, and how many bytes an instance takes.
    pub fn validate_module(&self, info: &ModuleInfo) -> Result<(), AllocError>
        requires { CanValidate info.now.memories }
        ensures { result ≡ refused_by (module_refused self.now.settings self.now.plan.totals.table info.now) }
    {
        refused_by(module_refused(&self.settings, self.plan.totals.table, info))
    }

    /// Tests the type of a memory.
    pub fn validate_memory(&self, ty: &MemoryType) -> Result<(), AllocError>
        requires { ty.now.page_size_log2 < 64 }
        ensures { result ≡ refused_by (type_refused self.now.settings ty.now) }
    {
        refused_by(type_refused(&self.settings, ty))
    }
}

/// Refused exactly for the rule that is broken, if there is one.
pub fn refused_by(rule: Option<Unsupported>) -> Result<(), AllocError>
    ensures { result ≡ refused_by rule }
{
    match rule {
        None => Ok(()),
        Some(rule) => Err(AllocError::Unsupported(rule)),
    }
}
