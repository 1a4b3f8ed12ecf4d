//! Which memories are refused, whatever is live.
ghost use Rattle.std.specs.Prelude.{◌≡◌, ◌<◌, ◌%◌, ◌==◌, if◌then◌else◌, Some, None};
ghost use Rattle.pool_types.specs.MemoryTypes.{refused_limits};
ghost use Rattle.pool_alloc.specs.CanStep.{CanValidate};
ghost use Rattle.pool_alloc.specs.Refusals.{type_refused, first_refused, offset_refused, number_refused, memories_refused, memory_refused};

use crate::pool_core::Settings;
use pool_types::{ImageDecl, MemoryDecl, MemoryType, PageSize, Unsupported};

/// The first rule that the type of a memory breaks.
pub fn type_refused(settings: &Settings, ty: &MemoryType) -> Option<Unsupported>
    requires { ty.now.page_size_log2 < 64 }
    ensures { result ≡ type_refused settings.now ty.now }
{
    match ty.check() {
        Err(rule) => Some(rule),
        Ok(()) => memory_refused(settings, ty),
    }
}

/// The first rule that the memories of a module break by themselves.
pub fn memories_refused(settings: &Settings, decls: &[MemoryDecl]) -> Option<Unsupported>
    requires { CanValidate decls.now }
    ensures { result ≡ memories_refused settings.now decls.now }
{
    if let Some(rule) = offsets_refused(settings.page, decls) {
        return Some(rule);
    }
    if let Some(rule) = limits_refused(decls) {
        return Some(rule);
    }
    if let Some(rule) = number_refused(settings, decls.len()) {
        return Some(rule);
    }
    slots_refused(settings, decls)
}

/// The refusal of the first memory of which the image begins inside a page.
#[tactic(auto, using(crate::proofs::Refusals::refused_here, crate::proofs::Refusals::refused_later, crate::proofs::Refusals::refused_nowhere))]
pub fn offsets_refused(page: PageSize, decls: &[MemoryDecl]) -> Option<Unsupported>
    ensures { result ≡ first_refused (λ d. offset_refused page d.image) decls.now }
{
    for decl in decls {
        if let Some(rule) = offset_refused(page, &decl.image) {
            return Some(rule);
        }
    }
    None
}

fn offset_refused(page: PageSize, image: &Option<ImageDecl>) -> Option<Unsupported>
    ensures { result ≡ offset_refused page image.now }
{
    match image {
        Some(image) => offset_of(page, image.offset),
        None => None,
    }
}

fn offset_of(page: PageSize, offset: u64) -> Option<Unsupported>
    ensures { result ≡ (if offset % page == 0 then None else Some (Unsupported.ImageOffset offset)) }
{
    if offset % page.get() as u64 == 0 {
        None
    } else {
        Some(Unsupported::ImageOffset { offset })
    }
}

/// The refusal of the first memory of which the minimum exceeds the maximum.
#[tactic(auto, using(crate::proofs::Refusals::refused_here, crate::proofs::Refusals::refused_later, crate::proofs::Refusals::refused_nowhere))]
pub fn limits_refused(decls: &[MemoryDecl]) -> Option<Unsupported>
    ensures { result ≡ first_refused (λ d. refused_limits d.ty.limits) decls.now }
{
    for decl in decls {
        if let Err(rule) = decl.ty.check() {
            return Some(rule);
        }
    }
    None
}

pub(crate) fn number_refused(settings: &Settings, count: usize) -> Option<Unsupported>
    ensures { result ≡ number_refused settings.now count }
{
    let limit = settings.max_memories_per_module;
    if count > limit as usize {
        Some(Unsupported::MemoriesPerModule { count, limit })
    } else {
        None
    }
}

#[tactic(auto, using(crate::proofs::Refusals::refused_here, crate::proofs::Refusals::refused_later, crate::proofs::Refusals::refused_nowhere))]
pub(crate) fn slots_refused(settings: &Settings, decls: &[MemoryDecl]) -> Option<Unsupported>
    requires { CanValidate decls.now }
    ensures { result ≡ first_refused (λ d. memory_refused settings.now d.ty) decls.now }
{
    for decl in decls {
        if let Some(rule) = memory_refused(settings, &decl.ty) {
            return Some(rule);
        }
    }
    None
}

pub(crate) fn memory_refused(settings: &Settings, ty: &MemoryType) -> Option<Unsupported>
    requires { ty.now.page_size_log2 < 64 }
    ensures { result ≡ memory_refused settings.now ty.now }
{
    let slot = settings.max_memory_size;
    let Some(min) = ty.minimum_byte_size() else {
        return Some(Unsupported::MemoryUnrepresentable);
    };
    if min > slot as u64 {
        return Some(Unsupported::MemoryExceedsSlot { min, slot });
    }
    if ty.shared {
        return Some(Unsupported::MemoryShared);
    }
    None
}
