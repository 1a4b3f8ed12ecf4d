//! The calls that index allocators make on a shard while they hold it.
ghost use Rattle.std.specs.Prelude.{◌≡◌, ◌<◌};
ghost use Rattle.pool_index.specs.Probe.{IsProbed};

use crate::ids::MemoryInModule;
use crate::shard::Shard;
use crate::steps::Steps;
use pool_hall::PartCall;
use std::marker::Brand;
use std::sync::ledger::{Blank, Ledger};

/// What is asked of one shard after the other.
#[derive(Clone, Copy, Debug)]
pub enum Probe {
    /// A free slot for the wanted memory, or for none in particular.
    Pick(Option<MemoryInModule>),
    /// A warm slot that is affine to the memory, which it is no longer then.
    Affine(MemoryInModule),
}

// The steps of the shard are counted nowhere.
fn probed<L: Ledger>(shard: &mut Shard, probe: Probe, blank: Blank) -> Option<u32>
    requires name { blank.name ≡ L.name }
    requires parts { blank.parts ≡ L.parts }
    requires some { 0 < blank.parts }
    ensures { IsProbed probe shard.old result shard.new }
{
    let mut steps = Steps::<L>::new(blank);
    match probe {
        Probe::Pick(want) => match shard.pick(want, &mut steps) {
            Ok((slot, _)) => Some(shard.number(slot)),
            Err(_) => None,
        },
        Probe::Affine(of) => {
            let slot = shard.pick_affine_and_clear(of, &mut steps)?;
            Some(shard.number(slot))
        }
    }
}

fn probe_shard(shard: &mut Shard, probe: Probe) -> Option<u32>
    ensures { IsProbed probe shard.old result shard.new }
{
    probed::<Brand>(shard, probe, Blank::new(1))
}

impl PartCall<Shard> for Probe {
    ghost use Rattle.std.specs.Prelude.{◌≡◌};
    ghost use Rattle.pool_index.specs.Probe.{IsProbed};

    type Answer = Option<u32>;

    ghost needs = { λ c s. Unit {0} };

    ghost does = { λ c s r d t. IsProbed c s r t };

    fn call(&mut self, part: &mut Shard) -> Option<u32> {
        probe_shard(part, *self)
    }
}
