//! What is tested and counted without a slot: modules, memories and components by their rules, and instances by their counters.
ghost use Rattle.std.specs.Prelude.{◌≡◌, ◌<◌, ◌∷◌, [], true, false, OnOk, IfErr};
ghost use Rattle.pool_hall.specs.Seat.{view};
ghost use Rattle.pool_alloc.specs.CanStep.{CanValidate};
ghost use Rattle.pool_alloc.specs.Places.{counted_component, counted_instance};
ghost use Rattle.pool_alloc.specs.Refusals.{component_refused, module_refused, type_refused};
ghost use Rattle.pool_alloc.specs.Requests.{refused_by};
ghost use Rattle.pool_alloc.specs.StepTable.{no_component_left, no_instance_left};
ghost use Rattle.pool_driver.specs.Telling.{component_counter, instance_counter};
ghost use Rattle.pool_callers.specs.Callers.{CountsJust, IsAllocator, IsCaller, IsCounted, IsKept, IsUncounted, left_counted};

use crate::allocator::PoolingInstanceAllocator;
use crate::seat::CallerSeat;
use pool_alloc::{component_refused, module_refused, refused_by, type_refused};
use pool_driver::{PoolHall, PoolSeat};
use pool_pages::{PageMaker, Pages};
use pool_slots::{AllocError, ConcurrencyKind, GcHeap, PoolConcurrencyLimitError};
use pool_types::{ComponentInfo, MemoryType, ModuleInfo};

impl<P: Pages, H: GcHeap, M: PageMaker> PoolingInstanceAllocator<PoolHall<P, H, M>, P, H> {
    /// Tests a component: how many core instances, memories and tables it has, and how many bytes it takes. Nothing is held for it.
    pub fn validate_component(&self, info: &ComponentInfo) -> Result<(), AllocError>
        ensures { result ≡ refused_by (component_refused self.now.pool.settings info.now) }
    {
        refused_by(component_refused(&self.pool.settings, info))
    }

    /// Tests a module: its memories with their images, its tables, and how many bytes an instance takes. `allocate_module` tests it too.
    pub fn validate_module(&self, info: &ModuleInfo) -> Result<(), AllocError>
        requires { CanValidate info.now.memories }
        ensures { result ≡ refused_by (module_refused self.now.pool.settings self.now.pool.plan.totals.table info.now) }
    {
        let tables = self.pool.plan.totals.table;
        refused_by(module_refused(&self.pool.settings, tables, info))
    }

    /// Tests the type of a memory.
    pub fn validate_memory(&self, ty: &MemoryType) -> Result<(), AllocError>
        requires { ty.now.page_size_log2 < 64 }
        ensures { result ≡ refused_by (type_refused self.now.pool.settings ty.now) }
    {
        refused_by(type_refused(&self.pool.settings, ty))
    }

    /// Counts one core instance more, of a module that is allocated without `allocate_module`. Refused where as many are counted as the
    /// configuration allows.
    pub fn increment_core_instance_count(
        &self,
        seat: &mut CallerSeat<PoolSeat<P, H, M>, P, H>,
    ) -> Result<(), AllocError>
        requires pool { IsAllocator M.told self.now }
        requires seat { IsCaller M.told self.now seat.old }
        ensures seat { IsCaller M.told self.now seat.new }
        ensures frame { seat.new.frame ≡ seat.old.frame }
        ensures counted { OnOk result (IsCounted counted_instance (view seat.old.seat) (view seat.new.seat)) }
        ensures refused { IfErr result (λ e. (e ≡ no_instance_left self.now.pool.settings) × IsKept (view seat.old.seat) (view seat.new.seat) × CountsJust (instance_counter ∷ []) [] (instance_counter ∷ []) (view seat.old.seat) (view seat.new.seat)) }
        ensures parts { (view seat.new.seat).rises ≡ (view seat.old.seat).rises }
    {
        let limit = self.pool.settings.max_core_instances;
        if self.count_instance(seat, limit) {
            return Ok(());
        }
        let kind = ConcurrencyKind::CoreInstances;
        Err(AllocError::Limit(PoolConcurrencyLimitError {
            limit: limit as usize,
            kind,
        }))
    }

    /// Counts one component instance more, of a component that was tested. Refused where as many are counted as the configuration allows.
    pub fn increment_component_instance_count(
        &self,
        seat: &mut CallerSeat<PoolSeat<P, H, M>, P, H>,
    ) -> Result<(), AllocError>
        requires pool { IsAllocator M.told self.now }
        requires seat { IsCaller M.told self.now seat.old }
        ensures seat { IsCaller M.told self.now seat.new }
        ensures frame { seat.new.frame ≡ seat.old.frame }
        ensures counted { OnOk result (IsCounted counted_component (view seat.old.seat) (view seat.new.seat)) }
        ensures refused { IfErr result (λ e. (e ≡ no_component_left self.now.pool.settings) × IsKept (view seat.old.seat) (view seat.new.seat) × CountsJust (component_counter ∷ []) [] (component_counter ∷ []) (view seat.old.seat) (view seat.new.seat)) }
        ensures parts { (view seat.new.seat).rises ≡ (view seat.old.seat).rises }
    {
        let limit = self.pool.settings.max_component_instances;
        if self.count_component(seat, limit) {
            return Ok(());
        }
        let kind = ConcurrencyKind::ComponentInstances;
        Err(AllocError::Limit(PoolConcurrencyLimitError {
            limit: limit as usize,
            kind,
        }))
    }

    /// Counts one core instance less, of those that this seat has counted.
    pub fn decrement_core_instance_count(&self, seat: &mut CallerSeat<PoolSeat<P, H, M>, P, H>)
        requires pool { IsAllocator M.told self.now }
        requires seat { IsCaller M.told self.now seat.old }
        requires some { 0 < left_counted (view seat.old.seat) counted_instance }
        ensures seat { IsCaller M.told self.now seat.new }
        ensures frame { seat.new.frame ≡ seat.old.frame }
        ensures uncounted { IsUncounted counted_instance (view seat.old.seat) (view seat.new.seat) }
        ensures parts { (view seat.new.seat).rises ≡ (view seat.old.seat).rises }
    {
        self.pool.hall.subtract(&mut seat.seat, 1);
    }

    /// Counts one component instance less, of those that this seat has counted.
    pub fn decrement_component_instance_count(&self, seat: &mut CallerSeat<PoolSeat<P, H, M>, P, H>)
        requires pool { IsAllocator M.told self.now }
        requires seat { IsCaller M.told self.now seat.old }
        requires some { 0 < left_counted (view seat.old.seat) counted_component }
        ensures seat { IsCaller M.told self.now seat.new }
        ensures frame { seat.new.frame ≡ seat.old.frame }
        ensures uncounted { IsUncounted counted_component (view seat.old.seat) (view seat.new.seat) }
        ensures parts { (view seat.new.seat).rises ≡ (view seat.old.seat).rises }
    {
        self.pool.hall.subtract(&mut seat.seat, 2);
    }

    // Counts up, and down again at once where as many are counted already as the limit says. Answers whether it is counted.
    fn count_instance(&self, seat: &mut CallerSeat<PoolSeat<P, H, M>, P, H>, limit: u64) -> bool
        requires pool { IsAllocator M.told self.now }
        requires seat { IsCaller M.told self.now seat.old }
        requires limit { limit ≡ self.now.pool.settings.max_core_instances }
        ensures seat { IsCaller M.told self.now seat.new }
        ensures frame { seat.new.frame ≡ seat.old.frame }
        ensures counted { result ≡ true → IsCounted counted_instance (view seat.old.seat) (view seat.new.seat) }
        ensures over { result ≡ false → IsKept (view seat.old.seat) (view seat.new.seat) × CountsJust (instance_counter ∷ []) [] (instance_counter ∷ []) (view seat.old.seat) (view seat.new.seat) }
        ensures parts { (view seat.new.seat).rises ≡ (view seat.old.seat).rises }
    {
        let found = self.pool.hall.add(&mut seat.seat, 1);
        if found < limit {
            return true;
        }
        self.pool.hall.subtract(&mut seat.seat, 1);
        false
    }

    // The same of a component.
    fn count_component(&self, seat: &mut CallerSeat<PoolSeat<P, H, M>, P, H>, limit: u64) -> bool
        requires pool { IsAllocator M.told self.now }
        requires seat { IsCaller M.told self.now seat.old }
        requires limit { limit ≡ self.now.pool.settings.max_component_instances }
        ensures seat { IsCaller M.told self.now seat.new }
        ensures frame { seat.new.frame ≡ seat.old.frame }
        ensures counted { result ≡ true → IsCounted counted_component (view seat.old.seat) (view seat.new.seat) }
        ensures over { result ≡ false → IsKept (view seat.old.seat) (view seat.new.seat) × CountsJust (component_counter ∷ []) [] (component_counter ∷ []) (view seat.old.seat) (view seat.new.seat) }
        ensures parts { (view seat.new.seat).rises ≡ (view seat.old.seat).rises }
    {
        let number = self.pool.hall.add(&mut seat.seat, 2);
        if number < limit {
            return true;
        }
        self.pool.hall.subtract(&mut seat.seat, 2);
        false
    }
}
