ghost use Rattle.std.specs.Prelude.{◌≡◌, ◌+◌, ◌<◌, ◌≤◌, List, length, replicate, slice_range, Bool, true, false, Option, Ok, is_ok, IfSome, IfOk, IfErr, OnOk, OnErr};
ghost use Rattle.std.specs.Arc.{arc_value};
ghost use Rattle.std.specs.Borrow.{GName};
ghost use Rattle.std.specs.Result.{result_err};
ghost use Rattle.pool_pages.specs.MakerTold.{MakerTold};
ghost use Rattle.pool_memory.specs.Linear.{Linear, IsLinear, is_mapped, linear_bytes, linear_written, ready, grown_into_ready};
ghost use Rattle.pool_memory.specs.Growing.{GrowsTo, IsUngrown};
ghost use Rattle.pool_memory.specs.Moving.{MakerLeft};
ghost use Rattle.pool_memory.specs.Starting.{takes_image, ImageFits, HasStarted, HasNotStarted, StartsBy};

use pool_images::MemoryImage;
use pool_limits::GrowError;
use pool_pages::PageFault;
use pool_types::{MemoryTunables, MemoryType};
use std::sync::Arc;

/// The bytes of a linear memory, and the room that they have. `M` makes the regions of one that moves.
pub trait RuntimeLinearMemory<M>: Drop {
    ghost linear: { Self → Linear };

    // whether it is as it was made, but for its size
    ghost untouched: { Self → Bool };

    // what it sees of the maker, or nothing where it never calls that
    ghost maker_told: { M → Option MakerTold };

    // the `&mut` that the maker holds, as it tells them, or nothing where it is never called
    ghost maker_borrows: { M → List GName };

    fn byte_size(&self) -> usize
        ensures value { result ≡ (linear self.now).size }
        ensures always { IsLinear (linear self.now) };

    /// How large the memory can become without moving.
    fn byte_capacity(&self) -> usize
        ensures { result ≡ (linear self.now).capacity };

    /// Whether the memory can move to where it has more room.
    fn can_move(&self) -> bool
        ensures { result ≡ (linear self.now).moves };

    /// Whether an image is mapped in the memory.
    fn has_image(&self) -> bool
        ensures { result ≡ is_mapped (linear self.now).storage };

    /// Reads the bytes from `at` on into `out`.
    fn read(&self, at: usize, out: &mut [u8])
        requires { at + length out.old ≤ (linear self.now).size }
        ensures { IfSome (linear_bytes (linear self.now)) (λ bytes. out.new ≡ slice_range bytes at (at + length out.old)) };

    /// Writes the bytes from `at` on; all other bytes stay.
    fn write(&mut self, at: usize, bytes: &[u8])
        requires { at + length bytes.now ≤ (linear self.old).size }
        ensures { linear self.new ≡ linear_written at bytes.now (linear self.old) };

    /// Sets `len` bytes from `at` on to one value; all other bytes stay.
    fn fill(&mut self, at: usize, len: usize, byte: u8)
        requires { at + len ≤ (linear self.old).size }
        ensures { linear self.new ≡ linear_written at (replicate len byte) (linear self.old) };

    /// Makes the memory `size` bytes large, which is no less than it is. What is new is zeros. Beyond its capacity it
    /// moves, to a region of `maker` where it lies in one, and keeps its place until it has moved. Answers `PageFault`,
    /// `Overflow` or `Memory` alone.
    fn grow_to(&mut self, maker: &mut M, size: usize) -> Result<(), GrowError>
        requires more { (linear self.old).size ≤ size }
        requires room { (linear self.old).moves ≡ false → size ≤ (linear self.old).capacity }
        ensures ok { OnOk result (GrowsTo size (linear self.old) (linear self.new)) }
        ensures err { IfErr result (λ e. IsUngrown e size (linear self.old) (linear self.new)) }
        ensures maker { MakerLeft (result_err result) size (linear self.old) (linear self.new) (maker_told maker.old) (maker_told maker.new) }
        ensures borrows { maker_borrows maker.new ≡ maker_borrows maker.old };

    /// Makes the memory `len` bytes large, which is no less than it is and can be reached already. What is new is zeros.
    fn set_byte_size(&mut self, len: usize)
        requires more { (linear self.old).size ≤ len }
        requires ready { len ≤ ready (linear self.old) }
        ensures { linear self.new ≡ grown_into_ready len (linear self.old) };

    /// Maps an image into a memory that was just made. Answers whether the memory takes it, which it does not where it
    /// lies in no region of its own, or isn't a whole number of that region's pages. After a `PageFault` it has no bytes.
    fn start_image(
        &mut self,
        ty: &MemoryType,
        tunables: &MemoryTunables,
        image: &Arc<MemoryImage>,
    ) -> Result<bool, PageFault>
        requires as_made { untouched self.old ≡ true }
        requires page { ty.now.page_size_log2 < 64 }
        requires fits { ImageFits (arc_value image.now) (linear self.old) }
        ensures takes { IfOk result (λ taken. taken ≡ takes_image (linear self.old)) }
        ensures started { result ≡ Ok true → HasStarted (arc_value image.now) (linear self.old) (linear self.new) }
        ensures same { result ≡ Ok false → linear self.new ≡ linear self.old }
        ensures fault { OnErr result (HasNotStarted (linear self.old) (linear self.new)) }
        ensures order { StartsBy ty.now tunables.now (arc_value image.now) (is_ok result) (linear self.old) (linear self.new) };
}
