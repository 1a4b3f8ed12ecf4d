//! How many bytes the state of an instance takes, and a component.
ghost use Rattle.std.specs.Prelude.{◌≡◌};
ghost use Rattle.pool_alloc.specs.Refusals.{instance_size, size_refused, component_size_refused, component_refused};

use crate::pool_core::Settings;
use pool_types::{ComponentInfo, ModuleInfo, Unsupported};

/// How many bytes the state of an instance of the module takes. Stands still at the end of its type.
pub fn instance_size(info: &ModuleInfo) -> u64
    ensures { result ≡ instance_size info.now }
{
    let mut size = info.state_bytes;
    let parts = info.parts.as_slice();
    for part in parts {
        size = size.saturating_add(part.bytes);
    }
    size
}

/// The refusal of a module of which an instance takes too many bytes.
pub(crate) fn size_refused(settings: &Settings, info: &ModuleInfo) -> Option<Unsupported>
    ensures { result ≡ size_refused settings.now info.now }
{
    let size = instance_size(info);
    let limit = settings.core_instance_size;
    if size > limit as u64 {
        Some(Unsupported::InstanceSize { size, limit })
    } else {
        None
    }
}

/// The first rule that the component breaks.
pub fn component_refused(settings: &Settings, info: &ComponentInfo) -> Option<Unsupported>
    ensures { result ≡ component_refused settings.now info.now }
{
    let limit = settings.max_core_instances_per_component;
    let count = info.core_instances;
    if count > limit as u64 {
        return Some(Unsupported::ComponentInstances { count, limit });
    }
    let limit = settings.max_memories_per_component;
    let count = info.memories;
    if count > limit as u64 {
        return Some(Unsupported::ComponentMemories { count, limit });
    }
    let limit = settings.max_tables_per_component;
    let count = info.tables;
    if count > limit as u64 {
        return Some(Unsupported::ComponentTables { count, limit });
    }
    component_size_refused(settings, info)
}

// The refusal of a component that takes too many bytes.
fn component_size_refused(settings: &Settings, info: &ComponentInfo) -> Option<Unsupported>
    ensures { result ≡ component_size_refused settings.now info.now }
{
    let size = info.own_bytes.saturating_add(info.core_bytes);
    let limit = settings.component_instance_size;
    if size > limit as u64 {
        Some(Unsupported::ComponentSize {
            size,
            limit,
            own_bytes: info.own_bytes,
            core_bytes: info.core_bytes,
        })
    } else {
        None
    }
}
