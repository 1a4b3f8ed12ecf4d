ghost use Rattle.std.specs.Prelude.{◌≡◌};
ghost use Rattle.pool_alloc.specs.Refusals.{first_refused};
ghost use Rattle.pool_on_demand.specs.Refusals.{module_refused, shared_refused, type_refused};

use pool_alloc::{limits_refused, table_limits_refused};
use pool_types::{MemoryDecl, MemoryType, ModuleInfo, Unsupported};

// The first rule that the module breaks.
pub(crate) fn module_refused(info: &ModuleInfo) -> Option<Unsupported>
    ensures { result ≡ module_refused info.now }
{
    let memories = info.memories.as_slice();
    if let Some(rule) = limits_refused(memories) {
        return Some(rule);
    }
    if let Some(rule) = table_limits_refused(info.tables.as_slice()) {
        return Some(rule);
    }
    sharing_refused(memories)
}

// The first rule that a memory of this type breaks.
pub(crate) fn type_refused(ty: &MemoryType) -> Option<Unsupported>
    ensures { result ≡ type_refused ty.now }
{
    match ty.check() {
        Err(rule) => Some(rule),
        Ok(()) => shared_refused(ty),
    }
}

fn shared_refused(ty: &MemoryType) -> Option<Unsupported>
    ensures { result ≡ shared_refused ty.now }
{
    if ty.shared {
        Some(Unsupported::SharedOnDemand)
    } else {
        None
    }
}

#[tactic(auto, using(crate::proofs::Refusing::refused_here, crate::proofs::Refusing::refused_later, crate::proofs::Refusing::refused_nowhere))]
fn sharing_refused(decls: &[MemoryDecl]) -> Option<Unsupported>
    ensures { result ≡ first_refused (λ d. shared_refused d.ty) decls.now }
{
    for decl in decls {
        if let Some(rule) = shared_refused(&decl.ty) {
            return Some(rule);
        }
    }
    None
}
