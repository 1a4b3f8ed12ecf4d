//! Regions of pages, and what makes them: the line between the pool and the system.
//!
//! Read the trait `Pages` first: a region whose pages are exposed, hidden, mapped, erased and decommitted by calls that
//! may fail. Then `PageMaker`, which makes regions, and the backing of images (`ImageData`). `MemoryPages` makes
//! regions in memory, each a `MadeRegion` of one of two behaviours: a decommit brings the image back (`MemoryRegion`),
//! or zeros (`ZeroingRegion`). `FailingMaker` and `Failing` put a list of planned failures (`Fault`) before another
//! maker or region.
//!
//! From Wasmtime: `vm/mmap.rs`. It stands on `pool_types` alone, and doesn't know what a region is for.
//!
//! ```rust
//! let mut maker = MemoryPages::new(page);
//! let mut region = maker.make(alloc, RegionName::Memory(0), behaviour, accessible, len)?;
//! region.expose(start, size)?;
//! ```
#![tactic(auto)]

// What a region is
mod page_laws;
mod pages;
mod region;

// What makes regions, and images
mod image_data;
mod maker;
mod memory_pages;

// Regions in memory
mod call_counts;
mod column;
mod column_edits;
mod dense_pages;
mod made_region;
mod memory_region;
mod zeroing_region;

// Planned failures
mod call_plan;
mod failing;
mod failing_maker;
mod fault_index;
mod fault_plan;
mod listed_calls;

pub use failing::Failing;
pub use failing_maker::FailingMaker;
pub use fault_plan::{Fault, FaultKind};
pub use image_data::ImageData;
pub use made_region::MadeRegion;
pub use maker::{MakeFault, PageMaker};
pub use memory_pages::MemoryPages;
pub use memory_region::MemoryRegion;
pub use page_laws::calls_change_their_pages;
pub use pages::{PageCalls, PageFault, Pages, RegionName};
pub use region::PageRegion;
pub use zeroing_region::ZeroingRegion;
