ghost use Rattle.std.specs.Prelude.{◌≡◌, ◌≢◌, ◌↔◌, ℕ, ◌+◌, ◌%◌, ◌^◌, ◌<◌, ◌&&◌, ◌∷◌, ◌++◌, [], false, true, length, map, vec_len, slice_index_or, Err, Some, None, is_some, IsSome, All, IfOk, IfSome, OnOk, MatchResult, option_map};
ghost use Rattle.std.specs.Arc.{arc_value};
ghost use Rattle.std.specs.List.{list_all};
ghost use Rattle.pool_pages.specs.MakerTold.{fails_images};
ghost use Rattle.pool_images.specs.Images.{image_of, padded, images_from, makes_listed_images, misaligned, misplaced, first_misplaced, ends_in_minimum};
ghost use Rattle.pool_images.specs.ImageErrors.{RaisesImageFaults, RaisesImageBehind, IsListedImageFault};

use pool_pages::{ImageData, MakeFault, PageMaker};
use pool_types::{
    ByteList, CompiledModuleId, DefinedMemoryIndex, HostAlignedByteCount, ImageDecl, MemoryDecl,
    ModuleInfo, PageSize, Unsupported,
};
use std::alloc::{AllocError, AllocFailed, Global};
use std::marker::Model;
use std::sync::Arc;

/// Why an image can't be made.
#[derive(Clone, Copy, Debug, PartialEq, Eq)]
pub enum ImageError {
    Memory,
    Unsupported(Unsupported),
    /// The maker of regions failed.
    PageFault,
}

impl From<AllocError> for ImageError {
    ghost use Rattle.std.specs.Prelude.{◌≡◌};
    ghost use Rattle.pool_images.specs.declared.memory_image.ImageError.TheVariants.{Memory};

    ghost from_gives = { λ _ e. e ≡ Memory };

    fn from(_e: AllocError) -> ImageError {
        ImageError::Memory
    }
}

/// The image of a module's memory: whole pages of bytes at an offset, which is a page's too.
#[derive(Debug, Drop)]
pub struct MemoryImage {
    id: CompiledModuleId,
    memory: DefinedMemoryIndex,
    offset: usize,
    bytes: ImageData,
}

impl Model for MemoryImage {
    ghost use Rattle.std.specs.Prelude.{◌≡◌, ◌%◌};
    ghost use Rattle.pool_images.specs.Images.{Image};

    ghost Value = { Image };

    ghost view = { λ i. record { id = i.id; memory = i.memory; page = i.bytes.page; offset = i.offset; bytes = i.bytes.bytes } };

    ghost invariant = { λ i. i.offset % i.bytes.page ≡ 0 };
}

impl MemoryImage {
    /// Copies the bytes. `offset` is in bytes from the memory's start.
    pub fn new<M: PageMaker>(
        alloc: Global,
        maker: &mut M,
        page: PageSize,
        id: CompiledModuleId,
        memory: DefinedMemoryIndex,
        offset: u64,
        bytes: &[u8],
    ) -> Result<MemoryImage, ImageError>
        ensures ok { IfOk result (λ image. image ≡ record { id = id; memory = memory; page = page; offset = offset; bytes = bytes.now }) }
        ensures unsupported { (u : _) → (result ≡ Err (ImageError.Unsupported u)) ↔ (misaligned page offset (length bytes.now) ≡ Some u) }
        ensures maker { M.told maker.new ≡ record (M.told maker.old) { behind = (M.told maker.new).behind; faults = (M.told maker.new).faults } }
        ensures borrows { M.borrows maker.new ≡ M.borrows maker.old }
        ensures faults { MatchResult result (λ _. (M.told maker.new).faults ≡ (M.told maker.old).faults) (RaisesImageFaults (M.told maker.old).faults (M.told maker.new).faults) }
        ensures planned { IfSome (M.told maker.old).plan (λ plan. MatchResult result (λ _. fails_images id.0 plan ≡ false) (IsListedImageFault (fails_images id.0 plan))) }
        ensures listed { IfOk result (λ _. fails_images id.0 (M.told maker.old).listed ≡ false) }
        ensures behind { MatchResult result (λ _. (M.told maker.new).behind ≡ (M.told maker.old).behind) (RaisesImageBehind (fails_images id.0 (M.told maker.old).listed) (M.told maker.old).behind (M.told maker.new).behind) }
    {
        if offset % page.get() as u64 != 0 {
            return Err(ImageError::Unsupported(Unsupported::ImageOffset { offset }));
        }
        if bytes.len() % page.get() != 0 {
            return Err(ImageError::Unsupported(Unsupported::ImageLength { len: bytes.len() }));
        }
        let bytes = Vec::from_slice(alloc, bytes)?;
        make_image(
            alloc,
            maker,
            page,
            id,
            memory,
            offset,
            ByteList::from_vec(bytes),
        )
    }

    pub fn id(&self) -> CompiledModuleId
        ensures { result ≡ self.now.id }
    {
        self.id
    }

    pub fn memory(&self) -> DefinedMemoryIndex
        ensures { result ≡ self.now.memory }
    {
        self.memory
    }

    /// In bytes from the memory's start.
    pub fn offset(&self) -> usize
        ensures value { result ≡ self.now.offset }
        ensures whole { self.now.offset % self.now.page ≡ 0 }
    {
        self.offset
    }

    pub fn data(&self) -> &ImageData
        ensures { result.now ≡ record { page = self.now.page; bytes = self.now.bytes } }
    {
        &self.bytes
    }
}

// Has the maker make the image's file, and takes the bytes, which are whole pages.
fn make_image<M: PageMaker>(
    alloc: Global,
    maker: &mut M,
    page: PageSize,
    id: CompiledModuleId,
    memory: DefinedMemoryIndex,
    offset: u64,
    bytes: ByteList,
) -> Result<MemoryImage, ImageError>
    requires offset { offset % page ≡ 0 }
    requires whole { length bytes % page ≡ 0 }
    ensures ok { IfOk result (λ image. image ≡ record { id = id; memory = memory; page = page; offset = offset; bytes = bytes }) }
    ensures supported { (u : _) → result ≢ Err (ImageError.Unsupported u) }
    ensures maker { M.told maker.new ≡ record (M.told maker.old) { behind = (M.told maker.new).behind; faults = (M.told maker.new).faults } }
    ensures borrows { M.borrows maker.new ≡ M.borrows maker.old }
    ensures faults { MatchResult result (λ _. (M.told maker.new).faults ≡ (M.told maker.old).faults) (RaisesImageFaults (M.told maker.old).faults (M.told maker.new).faults) }
    ensures planned { IfSome (M.told maker.old).plan (λ plan. MatchResult result (λ _. fails_images id.0 plan ≡ false) (IsListedImageFault (fails_images id.0 plan))) }
    ensures listed { IfOk result (λ _. fails_images id.0 (M.told maker.old).listed ≡ false) }
    ensures behind { MatchResult result (λ _. (M.told maker.new).behind ≡ (M.told maker.old).behind) (RaisesImageBehind (fails_images id.0 (M.told maker.old).listed) (M.told maker.old).behind (M.told maker.new).behind) }
{
    let len = HostAlignedByteCount::new_unchecked(page, bytes.len());
    match maker.image(alloc, id.0, memory.0, len) {
        Ok(()) => Ok(MemoryImage {
            id,
            memory,
            offset: offset as usize,
            bytes: ImageData::new(page, bytes),
        }),
        Err(MakeFault::Memory) => Err(ImageError::Memory),
        Err(MakeFault::PageFault) => Err(ImageError::PageFault),
    }
}

/// The images of a module's memories. Shared with the slots that they are mapped into.
#[derive(Debug, Drop)]
pub struct ModuleMemoryImages {
    images: Vec<Option<Arc<MemoryImage>>>,
}

impl Model for ModuleMemoryImages {
    ghost use Rattle.std.specs.Prelude.{List, Option, map, option_map};
    ghost use Rattle.std.specs.Arc.{arc_value};
    ghost use Rattle.pool_images.specs.Images.{Image};

    ghost Value = { List (Option Image) };

    ghost view = { λ m. map (option_map arc_value) m.images.items };
}

impl ModuleMemoryImages {
    /// Pads each image with zeros to whole pages. None, with nothing made, where some padded image ends past the
    /// minimum of its memory. All offsets are tested before any end, and all ends before the first making.
    pub fn new<M: PageMaker>(
        alloc: Global,
        maker: &mut M,
        page: PageSize,
        id: CompiledModuleId,
        module_info: &ModuleInfo,
    ) -> Result<Option<ModuleMemoryImages>, ImageError>
        requires types { All (λ decl. decl.ty.page_size_log2 < 64) module_info.now.memories }
        requires count { length module_info.now.memories < 2 ^ 32 }
        ensures begins { OnOk result (first_misplaced page module_info.now.memories ≡ None) }
        ensures ends { IfOk result (λ made. is_some made ≡ list_all (ends_in_minimum page) module_info.now.memories) }
        ensures images { IfOk result (λ made. IfSome made (λ images. images ≡ images_from id page 0 module_info.now.memories)) }
        ensures unsupported { (n : ℕ) → (result ≡ Err (ImageError.Unsupported (Unsupported.ImageOffset n))) ↔ (first_misplaced page module_info.now.memories ≡ Some n) }
        ensures page_fault { result ≡ Err ImageError.PageFault → (first_misplaced page module_info.now.memories ≡ None) × (list_all (ends_in_minimum page) module_info.now.memories ≡ true) }
        ensures offsets { (u : _) → result ≡ Err (ImageError.Unsupported u) → (n : ℕ) × (u ≡ Unsupported.ImageOffset n) }
        ensures maker { M.told maker.new ≡ record (M.told maker.old) { behind = (M.told maker.new).behind; faults = (M.told maker.new).faults } }
        ensures borrows { M.borrows maker.new ≡ M.borrows maker.old }
        ensures faults { MatchResult result (λ _. (M.told maker.new).faults ≡ (M.told maker.old).faults) (RaisesImageFaults (M.told maker.old).faults (M.told maker.new).faults) }
        ensures planned { IfSome (M.told maker.old).plan (λ plan. MatchResult result (λ made. IsSome made → makes_listed_images id plan module_info.now.memories ≡ false) (IsListedImageFault (makes_listed_images id plan module_info.now.memories))) }
        ensures listed { IfOk result (λ made. IsSome made → makes_listed_images id (M.told maker.old).listed module_info.now.memories ≡ false) }
        ensures behind { MatchResult result (λ _. (M.told maker.new).behind ≡ (M.told maker.old).behind) (RaisesImageBehind (makes_listed_images id (M.told maker.old).listed module_info.now.memories) (M.told maker.old).behind (M.told maker.new).behind) }
    {
        let memories = module_info.memories.as_slice();
        if let Some(offset) = first_misplaced(page, memories) {
            return Err(ImageError::Unsupported(Unsupported::ImageOffset { offset }));
        }
        if !all_end_in_minimum(page, memories) {
            return Ok(None);
        }
        let images = make_images(alloc, maker, page, id, memories)?;
        Ok(Some(ModuleMemoryImages { images }))
    }

    /// The image of the memory with this number, which is below the module's number of memories.
    pub fn get_memory_image(&self, index: DefinedMemoryIndex) -> Option<&Arc<MemoryImage>>
        requires { index.0 < length self.now }
        ensures { option_map (λ image. arc_value image.now) result ≡ slice_index_or self.now index.0 None }
    {
        self.images[index.0 as usize].as_ref()
    }

    /// The same images in a list of its own. The images are shared: none of their bytes is copied.
    pub fn share(&self, alloc: Global) -> Result<ModuleMemoryImages, AllocError>
        ensures { IfOk result (λ images. images ≡ self.now) }
    {
        let images = share_all(alloc, self.images.as_slice())?;
        Ok(ModuleMemoryImages { images })
    }
}

// The same images in another list.
fn share_all(
    alloc: Global,
    images: &[Option<Arc<MemoryImage>>],
) -> Result<Vec<Option<Arc<MemoryImage>>>, AllocError>
    ensures { IfOk result (λ list. map (option_map arc_value) list.items ≡ map (option_map arc_value) images.now) }
{
    let mut list = Vec::with_capacity(alloc, images.len())?;
    for image in images {
        list.push(share_one(image)?)?;
    }
    Ok(list)
}

fn share_one(image: &Option<Arc<MemoryImage>>) -> Result<Option<Arc<MemoryImage>>, AllocError>
    ensures { IfOk result (λ shared. option_map arc_value shared ≡ option_map arc_value image.now) }
{
    match image {
        Some(image) => Ok(Some(Arc::clone(image)?)),
        None => Ok(None),
    }
}

// The offset of the memory's image, where that is inside a page.
fn misplaced(page: PageSize, decl: &MemoryDecl) -> Option<u64>
    ensures { result ≡ misplaced page decl.now }
{
    let image = decl.image.as_ref()?;
    if image.offset % page.get() as u64 == 0 {
        None
    } else {
        Some(image.offset)
    }
}

fn first_misplaced(page: PageSize, memories: &[MemoryDecl]) -> Option<u64>
    ensures { result ≡ first_misplaced page memories.now }
{
    for decl in memories {
        if let Some(offset) = misplaced(page, decl) {
            return Some(offset);
        }
    }
    None
}

// Whether the memory's image, padded, ends within the memory's minimum.
fn ends_in_minimum(page: PageSize, decl: &MemoryDecl) -> bool
    requires { decl.now.ty.page_size_log2 < 64 }
    ensures { result ≡ ends_in_minimum page decl.now }
{
    match &decl.image {
        None => true,
        Some(image) => {
            let size = page.get() as u128;
            let len = (image.bytes.len() as u128 + (size - 1)) / size * size;
            image.offset as u128 + len <= decl.ty.limits.min as u128 * decl.ty.page_size() as u128
        }
    }
}

fn all_end_in_minimum(page: PageSize, memories: &[MemoryDecl]) -> bool
    requires { All (λ decl. decl.ty.page_size_log2 < 64) memories.now }
    ensures { result ≡ list_all (ends_in_minimum page) memories.now }
{
    memories.iter().all(|decl| ends_in_minimum(page, decl))
}

// The bytes with zeros behind them, up to whole pages.
fn padded(alloc: Global, page: PageSize, bytes: &[u8]) -> Result<ByteList, AllocError>
    ensures ok { IfOk result (λ list. list ≡ padded page bytes.now) }
    ensures whole { IfOk result (λ list. length list % page ≡ 0) }
{
    let Ok(len) = HostAlignedByteCount::new_rounded_up(page, bytes.len()) else {
        return Err(AllocError);
    };
    let mut list = Vec::with_capacity(alloc, len.byte_count())?;
    list.extend_from_slice(bytes)?;
    list.resize(len.byte_count(), 0)?;
    Ok(ByteList::from_vec(list))
}

// The image that a module declares for one memory.
fn make_declared<M: PageMaker>(
    alloc: Global,
    maker: &mut M,
    page: PageSize,
    id: CompiledModuleId,
    memory: DefinedMemoryIndex,
    decl: &ImageDecl,
) -> Result<Arc<MemoryImage>, ImageError>
    requires { decl.now.offset % page ≡ 0 }
    ensures ok { IfOk result (λ image. arc_value image ≡ image_of id page memory.0 decl.now) }
    ensures supported { (u : _) → result ≢ Err (ImageError.Unsupported u) }
    ensures maker { M.told maker.new ≡ record (M.told maker.old) { behind = (M.told maker.new).behind; faults = (M.told maker.new).faults } }
    ensures borrows { M.borrows maker.new ≡ M.borrows maker.old }
    ensures faults { MatchResult result (λ _. (M.told maker.new).faults ≡ (M.told maker.old).faults) (RaisesImageFaults (M.told maker.old).faults (M.told maker.new).faults) }
    ensures planned { IfSome (M.told maker.old).plan (λ plan. MatchResult result (λ _. fails_images id.0 plan ≡ false) (IsListedImageFault (fails_images id.0 plan))) }
    ensures listed { IfOk result (λ _. fails_images id.0 (M.told maker.old).listed ≡ false) }
    ensures behind { MatchResult result (λ _. (M.told maker.new).behind ≡ (M.told maker.old).behind) (RaisesImageBehind (fails_images id.0 (M.told maker.old).listed) (M.told maker.old).behind (M.told maker.new).behind) }
{
    let bytes = padded(alloc, page, decl.bytes.as_slice())?;
    let image = make_image(alloc, maker, page, id, memory, decl.offset, bytes)?;
    Ok(Arc::new(alloc, image).map_err(AllocError::from)?)
}

// The image of one memory, where the module declares one.
fn make_one<M: PageMaker>(
    alloc: Global,
    maker: &mut M,
    page: PageSize,
    id: CompiledModuleId,
    memory: DefinedMemoryIndex,
    decl: &MemoryDecl,
) -> Result<Option<Arc<MemoryImage>>, ImageError>
    requires { misplaced page decl.now ≡ None }
    ensures ok { IfOk result (λ image. option_map arc_value image ≡ option_map (image_of id page memory.0) decl.now.image) }
    ensures supported { (u : _) → result ≢ Err (ImageError.Unsupported u) }
    ensures maker { M.told maker.new ≡ record (M.told maker.old) { behind = (M.told maker.new).behind; faults = (M.told maker.new).faults } }
    ensures borrows { M.borrows maker.new ≡ M.borrows maker.old }
    ensures faults { MatchResult result (λ _. (M.told maker.new).faults ≡ (M.told maker.old).faults) (RaisesImageFaults (M.told maker.old).faults (M.told maker.new).faults) }
    ensures planned { IfSome (M.told maker.old).plan (λ plan. MatchResult result (λ _. (is_some decl.now.image && fails_images id.0 plan) ≡ false) (IsListedImageFault (is_some decl.now.image && fails_images id.0 plan))) }
    ensures listed { IfOk result (λ _. (is_some decl.now.image && fails_images id.0 (M.told maker.old).listed) ≡ false) }
    ensures behind { MatchResult result (λ _. (M.told maker.new).behind ≡ (M.told maker.old).behind) (RaisesImageBehind (fails_images id.0 (M.told maker.old).listed) (M.told maker.old).behind (M.told maker.new).behind) }
    ensures image { result ≡ Err ImageError.PageFault → is_some decl.now.image ≡ true }
{
    match &decl.image {
        None => Ok(None),
        Some(declared) => {
            let image = make_declared(alloc, maker, page, id, memory, declared)?;
            Ok(Some(image))
        }
    }
}

// Makes the image of the next memory, whose number is that of the images so far.
fn push_image<M: PageMaker>(
    alloc: Global,
    maker: &mut M,
    page: PageSize,
    id: CompiledModuleId,
    images: &mut Vec<Option<Arc<MemoryImage>>>,
    decl: &MemoryDecl,
) -> Result<(), ImageError>
    requires placed { misplaced page decl.now ≡ None }
    requires count { vec_len images.old < 2 ^ 32 }
    ensures ok { OnOk result (map (option_map arc_value) images.new.items ≡ map (option_map arc_value) images.old.items ++ option_map (image_of id page (vec_len images.old)) decl.now.image ∷ []) }
    ensures len { OnOk result (vec_len images.new ≡ vec_len images.old + 1) }
    ensures supported { (u : _) → result ≢ Err (ImageError.Unsupported u) }
    ensures maker { M.told maker.new ≡ record (M.told maker.old) { behind = (M.told maker.new).behind; faults = (M.told maker.new).faults } }
    ensures borrows { M.borrows maker.new ≡ M.borrows maker.old }
    ensures faults { MatchResult result (λ _. (M.told maker.new).faults ≡ (M.told maker.old).faults) (RaisesImageFaults (M.told maker.old).faults (M.told maker.new).faults) }
    ensures planned { IfSome (M.told maker.old).plan (λ plan. MatchResult result (λ _. (is_some decl.now.image && fails_images id.0 plan) ≡ false) (IsListedImageFault (is_some decl.now.image && fails_images id.0 plan))) }
    ensures listed { IfOk result (λ _. (is_some decl.now.image && fails_images id.0 (M.told maker.old).listed) ≡ false) }
    ensures behind { MatchResult result (λ _. (M.told maker.new).behind ≡ (M.told maker.old).behind) (RaisesImageBehind (fails_images id.0 (M.told maker.old).listed) (M.told maker.old).behind (M.told maker.new).behind) }
    ensures image { result ≡ Err ImageError.PageFault → is_some decl.now.image ≡ true }
{
    let memory = DefinedMemoryIndex(images.len() as u32);
    let image = make_one(alloc, maker, page, id, memory, decl)?;
    match images.push(image) {
        Ok(()) => Ok(()),
        Err(_) => Err(ImageError::Memory),
    }
}

fn make_images<M: PageMaker>(
    alloc: Global,
    maker: &mut M,
    page: PageSize,
    id: CompiledModuleId,
    memories: &[MemoryDecl],
) -> Result<Vec<Option<Arc<MemoryImage>>>, ImageError>
    requires placed { first_misplaced page memories.now ≡ None }
    requires count { length memories.now < 2 ^ 32 }
    ensures ok { IfOk result (λ images. map (option_map arc_value) images.items ≡ images_from id page 0 memories.now) }
    ensures supported { (u : _) → result ≢ Err (ImageError.Unsupported u) }
    ensures maker { M.told maker.new ≡ record (M.told maker.old) { behind = (M.told maker.new).behind; faults = (M.told maker.new).faults } }
    ensures borrows { M.borrows maker.new ≡ M.borrows maker.old }
    ensures faults { MatchResult result (λ _. (M.told maker.new).faults ≡ (M.told maker.old).faults) (RaisesImageFaults (M.told maker.old).faults (M.told maker.new).faults) }
    ensures planned { IfSome (M.told maker.old).plan (λ plan. MatchResult result (λ _. makes_listed_images id plan memories.now ≡ false) (IsListedImageFault (makes_listed_images id plan memories.now))) }
    ensures listed { IfOk result (λ _. makes_listed_images id (M.told maker.old).listed memories.now ≡ false) }
    ensures behind { MatchResult result (λ _. (M.told maker.new).behind ≡ (M.told maker.old).behind) (RaisesImageBehind (makes_listed_images id (M.told maker.old).listed memories.now) (M.told maker.old).behind (M.told maker.new).behind) }
{
    let mut images = Vec::with_capacity(alloc, memories.len())?;
    for decl in memories {
        push_image(alloc, maker, page, id, &mut images, decl)?;
    }
    Ok(images)
}
