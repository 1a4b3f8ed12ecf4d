ghost use Rattle.std.specs.Prelude.{◌≡◌, IfOk};
ghost use Rattle.pool_pages.specs.MadeRegions.{made_told};
ghost use Rattle.pool_pages.specs.MakerTold.{no_calls};
ghost use Rattle.pool_pages.specs.MemoryTold.{memory_maker, memory_told};

use crate::dense_pages::DensePages;
use crate::made_region::MadeRegion;
use crate::maker::{MakeFault, PageMaker, next_after};
use crate::memory_region::MemoryRegion;
use crate::pages::RegionName;
use crate::zeroing_region::ZeroingRegion;
use pool_types::{DecommitBehavior, HostAlignedByteCount, PageSize};
use std::alloc::{AllocError, Global};
use std::marker::Model;

/// Makes regions in memory. It fails only for want of memory; its regions tell what they hold, and that no
/// call on them fails.
#[derive(Debug, Drop)]
pub struct MemoryPages {
    page: PageSize,
    next: u32,
}

impl Model for MemoryPages {
    ghost use Rattle.pool_pages.specs.MakerTold.{MakerTold};
    ghost use Rattle.pool_pages.specs.MemoryTold.{memory_maker};

    ghost Value = { MakerTold };

    ghost view = { λ m. memory_maker m.page m.next };
}

impl MemoryPages {
    /// `page` is that of a region that isn't given one.
    pub fn new(page: PageSize) -> Self
        ensures { result ≡ memory_maker page 0 }
    {
        MemoryPages { page, next: 0 }
    }
}

/// A region of these pages, on which no call was made yet.
fn in_memory(
    alloc: Global,
    name: RegionName,
    behaviour: DecommitBehavior,
    pages: DensePages,
) -> Result<MadeRegion, AllocError>
    ensures { IfOk result (λ region. made_told region ≡ memory_told name behaviour pages no_calls 0) }
{
    match behaviour {
        DecommitBehavior::RestoreOriginalMapping => {
            let region = Box::new(alloc, MemoryRegion::new(name, pages))?;
            Ok(MadeRegion::Memory(region))
        }
        DecommitBehavior::Zero => {
            let region = Box::new(alloc, ZeroingRegion::new(name, pages))?;
            Ok(MadeRegion::Zeroing(region))
        }
    }
}

impl PageMaker for MemoryPages {
    type Region = MadeRegion;

    ghost told = { λ m. m };

    fn faults(&self) -> u64 {
        // a field is read so that the prover knows the view
        let _page = &self.page;
        0
    }

    fn page(&self) -> PageSize {
        self.page
    }

    fn next(&self) -> u32 {
        self.next
    }

    fn make(
        &mut self,
        alloc: Global,
        name: RegionName,
        behaviour: DecommitBehavior,
        accessible: HostAlignedByteCount,
        len: HostAlignedByteCount,
    ) -> Result<MadeRegion, MakeFault> {
        self.next = next_after(name, self.next);
        match DensePages::new(alloc, len.page(), accessible.byte_count(), len.byte_count()) {
            Ok(pages) => match in_memory(alloc, name, behaviour, pages) {
                Ok(region) => Ok(region),
                Err(_) => Err(MakeFault::Memory),
            },
            Err(_) => Err(MakeFault::Memory),
        }
    }

    fn image(
        &mut self,
        _alloc: Global,
        _id: u64,
        _memory: u32,
        _len: HostAlignedByteCount,
    ) -> Result<(), MakeFault> {
        // likewise
        let _page = &self.page;
        Ok(())
    }
}
