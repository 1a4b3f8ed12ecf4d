ghost use Rattle.std.specs.Prelude.{◌≡◌, true, Err, false, IfOk, IfErr, IfSome, OnOk};
ghost use Rattle.pool_types.specs.Rising.{Rose};
ghost use Rattle.pool_run.specs.Built.{is_built_module};
ghost use Rattle.pool_run.specs.Private.{images_of};
ghost use Rattle.pool_run.specs.Runs.{ModuleFaults, module_listed, is_refused};
ghost use Rattle.pool_run.specs.Validity.{is_valid_module};

use crate::output::RunFault;
use pool_images::{ImageError, ModuleMemoryImages};
use pool_pages::PageMaker;
use pool_types::{CompiledModuleId, ModuleInfo, Tunables};
use std::alloc::Global;

/// Makes the images of the module with this number. None, with nothing made, where memories don't begin as images at
/// all, or where some image of the module doesn't begin with a page or, padded, ends past its memory's minimum.
pub(crate) fn make_images<M: PageMaker>(
    alloc: Global,
    maker: &mut M,
    tunables: &Tunables,
    number: u64,
    info: &ModuleInfo,
) -> Result<Option<ModuleMemoryImages>, RunFault>
    requires built { is_built_module info.now ≡ true }
    requires valid { is_valid_module info.now ≡ true }
    ensures ok { IfOk result (λ made. made ≡ images_of tunables.now (M.told maker.old).page number info.now.memories) }
    ensures same { OnOk result (M.told maker.new ≡ M.told maker.old) }
    ensures maker { M.told maker.new ≡ record (M.told maker.old) { behind = (M.told maker.new).behind; faults = (M.told maker.new).faults } }
    ensures borrows { M.borrows maker.new ≡ M.borrows maker.old }
    ensures fault { result ≡ Err RunFault.PageFault → ModuleFaults tunables.now (M.told maker.old).page number info.now (M.told maker.old) (M.told maker.new) }
    ensures own { OnOk result (module_listed tunables.now (M.told maker.old).page number (M.told maker.old).listed info.now ≡ false) }
    ensures unlisted { OnOk result (IfSome (M.told maker.old).plan (λ plan. module_listed tunables.now (M.told maker.old).page number plan info.now ≡ false)) }
    ensures accepted { IfErr result (λ fault. is_refused fault ≡ false) }
{
    if !tunables.memory_init_cow {
        return Ok(None);
    }
    let page = maker.page();
    match ModuleMemoryImages::new(alloc, maker, page, CompiledModuleId(number), info) {
        Ok(images) => Ok(images),
        Err(ImageError::Memory) => Err(RunFault::Memory),
        Err(ImageError::PageFault) => Err(RunFault::PageFault),
        Err(ImageError::Unsupported(_)) => Ok(None),
    }
}
