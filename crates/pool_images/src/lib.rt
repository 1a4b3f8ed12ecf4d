//! Copy-on-write images of memories, and the slots that they are mapped into.
//!
//! Read `MemoryImageSlot` first: a slot owns its region, and holds at most one image. `instantiate` gives it a size and
//! an image, and makes no page call for an image that it has already. `clear_and_remain_ready` resets it: where pages
//! go back to the image it sets by hand what is to stay resident, and leaves the rest as `Ranges` to be decommitted;
//! where they go back to zeros it erases the slot. `MemoryImage` is an image of one memory, made by a `PageMaker`, and
//! `ModuleMemoryImages` those of a module.
//!
//! From Wasmtime: `vm/cow.rs`. It stands on `pool_types` and `pool_pages`, and on `arrayvec` of the toolchain. It
//! doesn't know which slot it is, nor when ranges are decommitted.
//!
//! ```rust
//! slot.instantiate(initial, Some(&image), &ty, &tunables)?;
//! let kept = slot.clear_and_remain_ready(dirty_pages, keep_resident, &mut ranges)?;
//! ```
#![tactic(auto)]

// Slots
mod image_slot;

// Images
mod memory_image;

// What a reset leaves
mod ranges;
mod reset_laws;

pub use image_slot::dirty_pages::{PageSpan, reset_dirty};
pub use image_slot::{ImageName, MemoryImageSlot};
pub use memory_image::{ImageError, MemoryImage, ModuleMemoryImages};
pub use ranges::{ByteRange, MAX_RANGES, Ranges};
pub use reset_laws::resets_leave_the_same;
