//! Copies of what is known of a module.
ghost use Rattle.std.specs.Prelude.{◌≡◌, IfOk};

use crate::module_types::{ImageDecl, MemoryDecl, ModuleInfo, Part};
use crate::plain_list::{ByteList, PlainList};
use crate::text::Text;
use std::alloc::{AllocError, Global};

impl ModuleInfo {
    /// The same once more, with copies of its images' bytes.
    pub fn copy(&self, alloc: Global) -> Result<ModuleInfo, AllocError>
        ensures { IfOk result (λ copy. copy ≡ self.now) }
    {
        Ok(ModuleInfo {
            memories: copy_memories(alloc, self.memories.as_slice())?,
            tables: PlainList::from_vec(Vec::from_slice(alloc, self.tables.as_slice())?),
            state_bytes: self.state_bytes,
            parts: copy_parts(alloc, self.parts.as_slice())?,
        })
    }
}

fn copy_parts(alloc: Global, parts: &[Part]) -> Result<PlainList<Part>, AllocError>
    ensures { IfOk result (λ copies. copies ≡ parts.now) }
{
    let mut copies = Vec::with_capacity(alloc, parts.len())?;
    for part in parts {
        copies.push(copy_part(alloc, part)?)?;
    }
    Ok(PlainList::from_vec(copies))
}

fn copy_part(alloc: Global, part: &Part) -> Result<Part, AllocError>
    ensures { IfOk result (λ copy. copy ≡ part.now) }
{
    Ok(Part {
        name: Text::from_string(String::from_str(alloc, part.name.as_str())?),
        bytes: part.bytes,
    })
}

fn copy_memories(
    alloc: Global,
    memories: &[MemoryDecl],
) -> Result<PlainList<MemoryDecl>, AllocError>
    ensures { IfOk result (λ copies. copies ≡ memories.now) }
{
    let mut copies = Vec::with_capacity(alloc, memories.len())?;
    for decl in memories {
        copies.push(copy_memory(alloc, decl)?)?;
    }
    Ok(PlainList::from_vec(copies))
}

fn copy_memory(alloc: Global, decl: &MemoryDecl) -> Result<MemoryDecl, AllocError>
    ensures { IfOk result (λ copy. copy ≡ decl.now) }
{
    Ok(MemoryDecl {
        ty: decl.ty,
        image: match &decl.image {
            None => None,
            Some(image) => Some(copy_image(alloc, image)?),
        },
    })
}

fn copy_image(alloc: Global, image: &ImageDecl) -> Result<ImageDecl, AllocError>
    ensures { IfOk result (λ copy. copy ≡ image.now) }
{
    let bytes = Vec::from_slice(alloc, image.bytes.as_slice())?;
    Ok(ImageDecl {
        offset: image.offset,
        bytes: ByteList::from_vec(bytes),
    })
}
