use pool_memory::RuntimeLinearMemory;
use pool_on_demand::{OnDemandHeap, OnDemandInstance, OnDemandMemory, OnDemandStack};
use pool_pages::Pages;
use pool_slots::PlainHeap;

/// What was granted on demand to a command.
#[derive(Drop)]
pub(crate) enum OnDemandGrant<M, L: RuntimeLinearMemory<M>, P: Pages> {
    Instance(OnDemandInstance<M, L, P>),
    Component,
    Stack(OnDemandStack<P>),
    /// A heap and its memory.
    Heap(OnDemandHeap<PlainHeap>, OnDemandMemory<M, L>),
}
