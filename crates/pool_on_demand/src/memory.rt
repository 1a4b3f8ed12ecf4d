ghost use Rattle.std.specs.Prelude.{◌≡◌, ◌^◌, ◌<◌, IfSome, option_map};
ghost use Rattle.std.specs.Arc.{arc_value};
ghost use Rattle.pool_types.specs.MemoryTypes.{minimum_byte_size};
ghost use Rattle.pool_memory.specs.Creators.{IsSameMaker};
ghost use Rattle.pool_memory.specs.Dynamic.{ImageOf};
ghost use Rattle.pool_memory.specs.Making.{maximum_asked};
ghost use Rattle.pool_on_demand.specs.Answers.{Allocates, memory_refusal};
ghost use Rattle.pool_on_demand.specs.Grants.{IsMemoryMade, IsLeased};
ghost use Rattle.pool_on_demand.specs.Refusals.{memory_refused, answer_given};

use crate::given_answer::GivenAnswer;
use crate::lease::OnDemandMemory;
use crate::on_demand::OnDemandInstanceAllocator;
use pool_images::MemoryImage;
use pool_limits::LimiterError;
use pool_memory::{Memory, MemoryError, RuntimeLinearMemory, RuntimeMemoryCreator};
use pool_pages::PageMaker;
use pool_slots::{AllocError, MemoryAllocationIndex};
use pool_types::{MemoryTunables, MemoryType};
use std::alloc::Global;
use std::sync::Arc;

impl<M: PageMaker, C: RuntimeMemoryCreator<M>> OnDemandInstanceAllocator<M, C> {
    // The memory of this type by these settings, where a limiter gave this answer.
    pub(crate) fn make_memory(
        &self,
        alloc: Global,
        maker: &mut M,
        ty: &MemoryType,
        tunables: &MemoryTunables,
        image: Option<&Arc<MemoryImage>>,
        answer: Result<bool, LimiterError>,
    ) -> Result<OnDemandMemory<M, C::Linear>, AllocError>
        requires page { ty.now.page_size_log2 < 64 }
        requires image { IfSome image (λ i. ImageOf ty.now (M.told maker.old) (arc_value i.now)) }
        ensures answer { Allocates (memory_refused (answer_given result) (C.refuses self.now.creator (M.told maker.old).page ty.now tunables.now) ty.now) (IsMemoryMade ty.now tunables.now (C.designs self.now.creator (M.told maker.old).page ty.now tunables.now (minimum_byte_size ty.now) (maximum_asked ty.now)) (option_map (λ i. arc_value i.now) image.entry) (M.told maker.new).next (M.told maker.old)) result (M.told maker.old) (M.told maker.new) }
        ensures given { answer_given result ≡ answer }
        ensures borrows { M.borrows maker.new ≡ M.borrows maker.old }
        ensures maker { IsSameMaker (M.told maker.old) (M.told maker.new) }
    {
        let limiter = &mut GivenAnswer::new(answer);
        let made = Memory::new_dynamic(
            alloc,
            maker,
            ty,
            tunables,
            &self.creator,
            image,
            Some(limiter),
            tunables.kind,
        );
        lease_memory(made)
    }
}

// The memory as it is granted, or its refusal.
fn lease_memory<M, L: RuntimeLinearMemory<M>>(
    made: Result<Memory<M, L>, MemoryError>,
) -> Result<OnDemandMemory<M, L>, AllocError>
    ensures { IsLeased made result }
{
    match made {
        Ok(memory) => Ok(OnDemandMemory {
            index: MemoryAllocationIndex::default(),
            memory,
        }),
        Err(error) => Err(memory_refusal(error)),
    }
}

fn memory_refusal(error: MemoryError) -> AllocError
    ensures { result ≡ memory_refusal error }
{
    match error {
        MemoryError::Memory => AllocError::Memory,
        MemoryError::Unsupported(rule) => AllocError::Unsupported(rule),
        MemoryError::LimiterDenied { min } => AllocError::LimiterDenied { table: false, min },
        MemoryError::LimiterFault(error) => AllocError::LimiterFault(error),
        MemoryError::PageFault => AllocError::PageFault,
    }
}
