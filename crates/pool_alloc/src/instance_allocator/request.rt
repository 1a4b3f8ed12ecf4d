//! What an allocator is asked for an instance with.

use pool_images::ModuleMemoryImages;
use pool_types::{CompiledModuleId, ModuleInfo, Tunables};

/// What an allocation is for: a module and its images, the settings, and who is asked how large its memories and tables may
/// be.
#[derive(Drop)]
pub struct InstanceAllocationRequest<'a, R> {
    pub module: &'a ModuleInfo,
    /// Where they are given, those that are made of the module, at the page of the allocator's regions.
    pub images: Option<&'a ModuleMemoryImages>,
    /// The name of the compiled module, for the affinity of slots, where an allocator has some.
    pub unique_id: Option<CompiledModuleId>,
    /// A pool goes by those that it was made with, and takes no notice of these.
    pub tunables: &'a Tunables,
    /// Where memories are to lie. None: in the stripe that the seat has. An allocator that has no stripes takes no notice of it.
    pub stripe: Option<u32>,
    pub limiter: Option<&'a mut R>,
}
