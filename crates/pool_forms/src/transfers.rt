ghost use Rattle.std.specs.Prelude.{MatchResult};
ghost use Rattle.pool_forms.specs.Streams.{Wrote, WrotePart};
ghost use Rattle.pool_forms.specs.Transfers.{ReadsAll};

use crate::streams::{Failed, Sink, Source};
use pool_types::ByteList;
use std::alloc::Global;

/// How many bytes an input may have.
const MOST_INPUT: usize = 67_108_864;

/// How many bytes are asked for at a time.
const PIECE: usize = 16_384;

/// Why an input isn't read.
#[derive(Clone, Copy, Debug, PartialEq, Eq)]
pub enum ReadFault {
    /// A read failed.
    Failed,
    /// There are more bytes than an input may have.
    TooLong,
    Memory,
}

/// Reads all that the source gives.
pub fn read_all<S: Source>(alloc: Global, source: &mut S) -> Result<ByteList, ReadFault>
    ensures { ReadsAll (S.told source.old) (S.told source.new) result }
{
    let mut piece = [0u8; PIECE];
    let mut bytes = Vec::new(alloc);
    'turns: loop {
        let n = match source.read(&mut piece) {
            Ok(n) => n,
            Err(Failed) => return Err(ReadFault::Failed),
        };
        if n == 0 {
            return Ok(ByteList::from_vec(bytes));
        }
        if n > MOST_INPUT - bytes.len() {
            return Err(ReadFault::TooLong);
        }
        if bytes.extend_from_slice(&piece[..n]).is_err() {
            return Err(ReadFault::Memory);
        }
    }
}

/// Writes all of the bytes.
pub fn write_all<K: Sink>(sink: &mut K, bytes: &[u8]) -> Result<(), Failed>
    ensures { MatchResult result (λ _. Wrote bytes.now (K.told sink.old) (K.told sink.new)) (λ _. WrotePart bytes.now (K.told sink.old) (K.told sink.new)) }
{
    let mut done = 0;
    while done < bytes.len() {
        let (_, rest) = bytes.split_at(done);
        let taken = sink.write(rest)?;
        if taken == 0 {
            return Err(Failed);
        }
        done += taken;
    }
    Ok(())
}
