ghost use Rattle.std.specs.Prelude.{◌≡◌, ◌+◌, ◌^◌, ◌<◌, ◌≤◌, length, slice_range, vec_capacity, None, IfOk, IfErr, OnOk, OnErr};
ghost use Rattle.std.specs.Option.{SomeIff};
ghost use Rattle.pool_pages.specs.Contents.{put, put_all};
ghost use Rattle.pool_pages.specs.Dense.{with_zeros};
ghost use Rattle.pool_memory.specs.Growing.{GrowsTo};
ghost use Rattle.pool_memory.specs.Malloc.{malloc_linear, units_of, needs_pages, malloc_capacity, malloc_refusal, malloc_made, malloc_grown, RefusesMalloc};

use crate::linear_memory::RuntimeLinearMemory;
use crate::memory_error::MemoryError;
use pool_images::MemoryImage;
use pool_limits::GrowError;
use pool_pages::PageFault;
use pool_types::{MemoryTunables, MemoryType, Unsupported};
use std::alloc::{AllocError, Global};
use std::marker::Model;
use std::sync::Arc;

/// The bytes of a unit in which a memory without pages is stored.
const UNIT: usize = 16;

/// A linear memory in a list of bytes, for settings that need no pages. It is stored in units of 16 bytes.
#[derive(Drop)]
pub struct MallocMemory {
    storage: Vec<u8>,
    size: usize,
    capacity: usize,
}

impl Model for MallocMemory {
    ghost use Rattle.std.specs.Prelude.{◌≤◌, vec_capacity};
    ghost use Rattle.pool_memory.specs.Malloc.{Malloc, IsMalloc};

    ghost Value = { Malloc };

    ghost view = { λ m. record { size = m.size; bytes = m.storage.items; capacity = m.capacity } };

    ghost invariant = { λ m. IsMalloc (record { size = m.size; bytes = m.storage.items; capacity = m.capacity }) × (m.capacity ≤ vec_capacity m.storage) };
}

impl MallocMemory {
    /// A memory of `minimum` bytes, all zeros. It takes room for what the settings reserve for its growth besides.
    /// `MallocTunables` where the settings have guards, reservations or copy-on-write images, and otherwise `AddressSpace`
    /// where addresses don't reach its room.
    pub fn new(
        alloc: Global,
        _ty: &MemoryType,
        tunables: &MemoryTunables,
        minimum: usize,
    ) -> Result<MallocMemory, MemoryError>
        ensures ok { IfOk result (λ m. m ≡ malloc_made tunables.now minimum) }
        ensures supported { OnOk result (malloc_refusal tunables.now minimum ≡ None) }
        ensures refused { IfErr result (λ e. RefusesMalloc (malloc_refusal tunables.now minimum) e) }
    {
        if needs_pages(tunables) {
            return Err(MemoryError::Unsupported(Unsupported::MallocTunables));
        }
        let Some(capacity) = first_capacity(tunables, minimum) else {
            return Err(MemoryError::Unsupported(Unsupported::AddressSpace));
        };
        let Ok(mut storage) = Vec::with_capacity(alloc, capacity) else {
            return Err(MemoryError::Memory);
        };
        let Ok(()) = storage.resize((minimum + (UNIT - 1)) / UNIT * UNIT, 0) else {
            return Err(MemoryError::Memory);
        };
        Ok(MallocMemory {
            storage,
            size: minimum,
            capacity,
        })
    }

    /// How many units of 16 bytes it stores.
    pub fn units(&self) -> usize
        ensures { result ≡ units_of self.now }
    {
        self.storage.len() / UNIT
    }

    // Stores as many units as a size needs, where it stores fewer.
    fn grow_storage(&mut self, size: usize) -> Result<(), AllocError>
        requires more { self.old.size ≤ size }
        ensures ok { OnOk result (self.new ≡ malloc_grown size self.old) }
        ensures grows { OnOk result (GrowsTo size (malloc_linear self.old) (malloc_linear self.new)) }
        ensures same { OnErr result (self.new ≡ self.old) }
        ensures full { OnErr result (self.old.capacity < size) }
    {
        let _size = self.size;
        let Some(end) = size.checked_add(UNIT - 1) else {
            return Err(AllocError);
        };
        let stored = end / UNIT * UNIT;
        store(&mut self.storage, stored)?;
        self.capacity = self.capacity.max(stored);
        self.size = size;
        Ok(())
    }
}

// Adds zeros up to a length, where it is shorter.
fn store(storage: &mut Vec<u8>, stored: usize) -> Result<(), AllocError>
    ensures items { OnOk result (storage.new.items ≡ with_zeros stored storage.old.items) }
    ensures room { OnOk result (stored ≤ vec_capacity storage.new) }
    ensures same { OnErr result (storage.new.items ≡ storage.old.items) }
    ensures capacity { vec_capacity storage.old ≤ vec_capacity storage.new }
    ensures full { OnErr result (vec_capacity storage.old < stored) }
{
    if storage.len() < stored {
        storage.resize(stored, 0)
    } else {
        Ok(())
    }
}

// Copies the bytes from a place on out.
fn copy_out(storage: &[u8], at: usize, out: &mut [u8])
    requires { at + length out.old ≤ length storage.now }
    ensures { out.new ≡ slice_range storage.now at (at + length out.old) }
{
    let part = &storage[at..at + out.len()];
    out.copy_from_slice(part);
}

// Copies bytes over those from a place on.
fn overwrite(storage: &mut Vec<u8>, at: usize, bytes: &[u8])
    requires { at + length bytes.now ≤ length storage.old.items }
    ensures items { storage.new.items ≡ put at bytes.now storage.old.items }
    ensures capacity { vec_capacity storage.new ≡ vec_capacity storage.old }
{
    let range = &mut storage[at..at + bytes.len()];
    range.copy_from_slice(bytes);
}

// Sets bytes from a place on to one value.
fn fill_range(storage: &mut Vec<u8>, at: usize, len: usize, byte: u8)
    requires { at + len ≤ length storage.old.items }
    ensures items { storage.new.items ≡ put_all at len byte storage.old.items }
    ensures capacity { vec_capacity storage.new ≡ vec_capacity storage.old }
{
    let range = &mut storage[at..at + len];
    range.fill(byte);
}

// Whether the settings have guards, reservations or images that are shared until they are written.
fn needs_pages(tunables: &MemoryTunables) -> bool
    ensures { result ≡ needs_pages tunables.now }
{
    tunables.guard_size() > 0 || tunables.reservation() > 0 || tunables.tunables().memory_init_cow
}

// For how many bytes a memory of this size takes room, where a `usize` can hold that.
fn first_capacity(tunables: &MemoryTunables, minimum: usize) -> Option<usize>
    ensures { SomeIff result (malloc_capacity tunables.now minimum < 2 ^ 64) (malloc_capacity tunables.now minimum) }
{
    let room = minimum.checked_add(tunables.reservation_for_growth() as usize)?;
    let end = room.checked_add(UNIT - 1)?;
    Some(end / UNIT * UNIT)
}

impl<M> RuntimeLinearMemory<M> for MallocMemory {
    ghost use Rattle.std.specs.Prelude.{[], true, None};
    ghost use Rattle.pool_memory.specs.Malloc.{malloc_linear};

    ghost linear = { malloc_linear };

    ghost untouched = { λ _. true };

    ghost maker_told = { λ _. None };

    ghost maker_borrows = { λ _. [] };

    fn byte_size(&self) -> usize {
        self.size
    }

    fn byte_capacity(&self) -> usize {
        self.capacity
    }

    fn can_move(&self) -> bool {
        let _size = self.size;
        true
    }

    fn has_image(&self) -> bool {
        let _size = self.size;
        false
    }

    fn read(&self, at: usize, out: &mut [u8]) {
        copy_out(self.storage.as_slice(), at, out);
    }

    fn write(&mut self, at: usize, bytes: &[u8]) {
        overwrite(&mut self.storage, at, bytes);
    }

    fn fill(&mut self, at: usize, len: usize, byte: u8) {
        fill_range(&mut self.storage, at, len, byte);
    }

    fn grow_to(&mut self, _maker: &mut M, size: usize) -> Result<(), GrowError> {
        match self.grow_storage(size) {
            Ok(()) => Ok(()),
            Err(AllocError) => Err(GrowError::Memory),
        }
    }

    fn set_byte_size(&mut self, len: usize) {
        self.size = len;
    }

    fn start_image(
        &mut self,
        _ty: &MemoryType,
        _tunables: &MemoryTunables,
        _image: &Arc<MemoryImage>,
    ) -> Result<bool, PageFault> {
        let _size = self.size;
        Ok(false)
    }
}
