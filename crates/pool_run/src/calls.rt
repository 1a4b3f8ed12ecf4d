ghost use Rattle.std.specs.Prelude.{◌≡◌, true, Err, Some, false, IfOk, IfErr, IfSome, OnOk, option_map};
ghost use Rattle.std.specs.List.{list_all};
ghost use Rattle.pool_types.specs.Rising.{Rose};
ghost use Rattle.std.specs.Arc.{arc_value};
ghost use Rattle.pool_run.specs.Built.{is_built_module};
ghost use Rattle.pool_run.specs.Made.{call_made, calls_made};
ghost use Rattle.pool_run.specs.Runs.{ModuleFaults, ModulesFault, module_listed, images_listed, is_refused};
ghost use Rattle.pool_run.specs.Validity.{is_valid_module};

use crate::images::make_images;
use crate::output::RunFault;
use pool_alloc::ModuleCall;
use pool_images::ModuleMemoryImages;
use pool_pages::PageMaker;
use pool_types::{CompiledModuleId, ModuleInfo, Tunables};
use std::alloc::{AllocError, Global};
use std::sync::Arc;

/// Makes a call for each module, with its images.
pub fn make_calls<M: PageMaker>(
    alloc: Global,
    maker: &mut M,
    tunables: &Tunables,
    modules: &[ModuleInfo],
) -> Result<Vec<ModuleCall>, RunFault>
    requires built { list_all is_built_module modules.now ≡ true }
    requires valid { list_all is_valid_module modules.now ≡ true }
    ensures calls { IfOk result (λ v. v.items ≡ calls_made tunables.now (M.told maker.old).page 0 modules.now) }
    ensures same { OnOk result (M.told maker.new ≡ M.told maker.old) }
    ensures maker { M.told maker.new ≡ record (M.told maker.old) { behind = (M.told maker.new).behind; faults = (M.told maker.new).faults } }
    ensures borrows { M.borrows maker.new ≡ M.borrows maker.old }
    ensures fault { result ≡ Err RunFault.PageFault → ModulesFault tunables.now (M.told maker.old).page modules.now (M.told maker.old) (M.told maker.new) }
    ensures own { OnOk result (images_listed tunables.now (M.told maker.old).page 0 (M.told maker.old).listed modules.now ≡ false) }
    ensures unlisted { OnOk result (IfSome (M.told maker.old).plan (λ plan. images_listed tunables.now (M.told maker.old).page 0 plan modules.now ≡ false)) }
    ensures accepted { IfErr result (λ fault. is_refused fault ≡ false) }
{
    let Ok(mut calls) = Vec::with_capacity(alloc, modules.len()) else {
        return Err(RunFault::Memory);
    };
    for info in modules {
        let call = match make_call(alloc, maker, tunables, calls.len() as u64, info) {
            Ok(call) => call,
            Err(fault) => return Err(fault),
        };
        let Ok(()) = calls.push(call) else {
            return Err(RunFault::Memory);
        };
    }
    Ok(calls)
}

// The call for the module with this number.
fn make_call<M: PageMaker>(
    alloc: Global,
    maker: &mut M,
    tunables: &Tunables,
    number: u64,
    info: &ModuleInfo,
) -> Result<ModuleCall, RunFault>
    requires built { is_built_module info.now ≡ true }
    requires valid { is_valid_module info.now ≡ true }
    ensures call { IfOk result (λ call. call ≡ call_made tunables.now (M.told maker.old).page number info.now) }
    ensures same { OnOk result (M.told maker.new ≡ M.told maker.old) }
    ensures maker { M.told maker.new ≡ record (M.told maker.old) { behind = (M.told maker.new).behind; faults = (M.told maker.new).faults } }
    ensures borrows { M.borrows maker.new ≡ M.borrows maker.old }
    ensures fault { result ≡ Err RunFault.PageFault → ModuleFaults tunables.now (M.told maker.old).page number info.now (M.told maker.old) (M.told maker.new) }
    ensures own { OnOk result (module_listed tunables.now (M.told maker.old).page number (M.told maker.old).listed info.now ≡ false) }
    ensures unlisted { OnOk result (IfSome (M.told maker.old).plan (λ plan. module_listed tunables.now (M.told maker.old).page number plan info.now ≡ false)) }
    ensures accepted { IfErr result (λ fault. is_refused fault ≡ false) }
{
    match make_images(alloc, maker, tunables, number, info) {
        Ok(images) => match call_of(alloc, CompiledModuleId(number), info, images) {
            Ok(call) => Ok(call),
            Err(_) => Err(RunFault::Memory),
        },
        Err(fault) => Err(fault),
    }
}

// The call for a module with these images.
fn call_of(
    alloc: Global,
    id: CompiledModuleId,
    info: &ModuleInfo,
    images: Option<ModuleMemoryImages>,
) -> Result<ModuleCall, AllocError>
    ensures { IfOk result (λ call. call ≡ record { info = info.now; images = images; id = Some id }) }
{
    let info = info.copy(alloc)?;
    Ok(ModuleCall {
        info: Arc::new(alloc, info).map_err(AllocError::from)?,
        images: shared(alloc, images)?,
        id: Some(id),
    })
}

fn shared(
    alloc: Global,
    images: Option<ModuleMemoryImages>,
) -> Result<Option<Arc<ModuleMemoryImages>>, AllocError>
    ensures { IfOk result (λ shared. option_map arc_value shared ≡ images) }
{
    match images {
        None => Ok(None),
        Some(images) => Ok(Some(Arc::new(alloc, images).map_err(AllocError::from)?)),
    }
}
