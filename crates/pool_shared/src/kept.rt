ghost use Rattle.std.specs.Prelude.{◌≡◌, ◌+◌, ◌≤◌, ℕ, length, IfOk, IfErr, OnOk};
ghost use Rattle.std.specs.Int.{w32};
ghost use Rattle.pool_shared.specs.Bounds.{IsPast, IsTrapped, IsAligned};
ghost use Rattle.pool_shared.specs.Shared.{Grows};

use crate::hold::{Asked, Held};
use crate::shared_state::SharedState;
use crate::wait_fault::WaitFault;
use crate::wait_step::WaitStep;
use pool_limits::{GrowFault, Trap};
use pool_memory::{RuntimeLinearMemory, validate_atomic_addr};
use std::marker::{Brand, PhantomData};

/// Tells contracts with how many bytes a shared memory was made, or a number that is less. `Brand` tells 0.
pub trait SizeAsMade: Drop {
    ghost size: { ℕ };
}

impl SizeAsMade for Brand {
    ghost size = { 0 };
}

// What stands behind the lock of a shared memory: its state, which has no fewer bytes than it was made with.
#[derive(Drop)]
pub struct Kept<M, L: RuntimeLinearMemory<M>, S: SizeAsMade> {
    state: SharedState<M, L>,
    made: PhantomData<S>,
    ghost grown: { S.size ≤ state.memory.linear.size },
}

impl<M, L: RuntimeLinearMemory<M>, S: SizeAsMade> Kept<M, L, S> {
    pub(crate) fn new(state: SharedState<M, L>) -> Kept<M, L, S>
        requires { S.size ≤ state.memory.linear.size }
        ensures { result.state ≡ state }
    {
        Kept {
            state,
            made: PhantomData,
        }
    }

    pub(crate) fn state(&self) -> &SharedState<M, L>
        ensures value { result.now ≡ self.now.state }
        ensures grown { S.size ≤ self.now.state.memory.linear.size }
    {
        &self.state
    }

    pub(crate) fn write(&mut self, at: u64, bytes: &[u8]) -> Result<(), Trap>
        ensures { IfErr result (IsPast S.size (at + length bytes.now)) }
    {
        self.state.write(at, bytes)
    }

    pub(crate) fn grow(
        &mut self,
        maker: &mut M,
        delta: u64,
    ) -> Result<Option<(usize, usize)>, GrowFault>
        ensures growth { Grows delta self.old.state.memory self.new.state.memory result }
        ensures maker { L.maker_told maker.new ≡ L.maker_told maker.old }
        ensures borrows { L.maker_borrows maker.new ≡ L.maker_borrows maker.old }
    {
        let _ty = self.state.ty();
        self.state.grow(maker, delta)
    }

    pub(crate) fn notify(&mut self, addr: u64, n: u32) -> Result<u32, Trap>
        ensures ok { OnOk result (IsAligned w32 addr) }
        ensures at_most { IfOk result (λ notified. notified ≤ n) }
        ensures err { IfErr result (IsTrapped w32 addr S.size) }
    {
        self.state.notify(addr, n)
    }
}

impl<M, L: RuntimeLinearMemory<M>, S: SizeAsMade> Held for Kept<M, L, S> {
    ghost use Rattle.std.specs.Prelude.{◌≡◌};
    ghost use Rattle.pool_shared.specs.Asks.{asked_valid, WaitsFor, IsRefusedFor, IsAlignedFor};
    ghost use Rattle.pool_shared.specs.Spot.{recheck_answer, after_recheck};

    ghost spot = { λ k. k.state.spot };

    ghost valid = { λ asked k. asked_valid asked k.state };

    ghost begins = { λ asked waiter deadline now old new result. WaitsFor asked waiter deadline now old.state new.state result };

    ghost rechecks = { λ waiter now old new step. (step ≡ recheck_answer waiter now old.state.spot) × (new.state ≡ record old.state { spot = after_recheck waiter now old.state.spot }) };

    ghost refuses = { λ asked fault. IsRefusedFor asked S.size fault };

    ghost accepts = { IsAlignedFor };

    fn is_waiting(&self, waiter: u32) -> bool {
        self.state.is_waiting(waiter)
    }

    fn validate(&self, asked: &Asked) -> Result<(), WaitFault> {
        let size = self.state.byte_size() as u64;
        match *asked {
            Asked::Word32 { addr, .. } => validate_atomic_addr(size, addr, 4, 4)?,
            Asked::Word64 { addr, .. } => validate_atomic_addr(size, addr, 8, 8)?,
        };
        Ok(())
    }

    fn begin(
        &mut self,
        asked: &Asked,
        waiter: u32,
        deadline: Option<u64>,
        now: u64,
    ) -> Result<WaitStep, WaitFault> {
        match *asked {
            Asked::Word32 { addr, expected } => {
                self.state.wait32(addr, waiter, expected, deadline, now)
            }
            Asked::Word64 { addr, expected } => {
                self.state.wait64(addr, waiter, expected, deadline, now)
            }
        }
    }

    fn recheck(&mut self, waiter: u32, now: u64) -> WaitStep {
        self.state.recheck(waiter, now)
    }
}
