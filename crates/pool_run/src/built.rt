ghost use Rattle.std.specs.Prelude.{◌≡◌};
ghost use Rattle.std.specs.List.{list_all};
ghost use Rattle.pool_run.specs.Built.{is_built, is_built_module, is_built_memory};

use crate::input::Input;
use pool_types::{MemoryDecl, ModuleInfo};

/// Whether the input is of those that can be run: the memories of its modules have pages of at most 64 KiB. Each that is read
/// from a text is.
pub fn is_built(input: &Input) -> bool
    ensures { result ≡ is_built input.now }
{
    are_built_modules(input.modules.as_slice())
}

fn are_built_modules(modules: &[ModuleInfo]) -> bool
    ensures { result ≡ list_all is_built_module modules.now }
{
    modules.iter().all(|info| is_built_module(info))
}

fn is_built_module(info: &ModuleInfo) -> bool
    ensures { result ≡ is_built_module info.now }
{
    are_built_memories(info.memories.as_slice())
}

fn are_built_memories(memories: &[MemoryDecl]) -> bool
    ensures { result ≡ list_all is_built_memory memories.now }
{
    memories.iter().all(|decl| is_built_memory(decl))
}

fn is_built_memory(decl: &MemoryDecl) -> bool
    ensures { result ≡ is_built_memory decl.now }
{
    decl.ty.page_size_log2 <= 16
}
