ghost use Rattle.std.specs.Prelude.{◌≡◌, MatchResult};
ghost use Rattle.pool_forms.specs.Streams.{SourceTold, SinkTold, Gave, ReadFailed, Took, WriteFailed};

/// A read or a write failed.
#[derive(Clone, Copy, Debug, PartialEq, Eq)]
pub struct Failed;

/// Gives bytes. A source may tell contracts which bytes it still gives.
pub trait Source {
    ghost told: { Self → SourceTold };

    /// How many reads have failed. Never falls, and stands still at the end of its type.
    fn faults(&self) -> u64
        ensures { result ≡ (told self.now).faults };

    /// Puts bytes at the front of the piece, and says how many: none only where the source is at its end or the
    /// piece is empty.
    fn read(&mut self, out: &mut [u8]) -> Result<usize, Failed>
        ensures { MatchResult result (λ n. Gave n out.old out.new (told self.old) (told self.new)) (λ _. ReadFailed (told self.old) (told self.new)) };
}

/// Takes bytes. A sink may tell contracts which bytes it took so far.
pub trait Sink {
    ghost told: { Self → SinkTold };

    /// How many writes have failed, those among them that took nothing of a piece. Never falls, and stands still
    /// at the end of its type.
    fn faults(&self) -> u64
        ensures { result ≡ (told self.now).faults };

    /// Takes bytes from the front of the piece, and says how many.
    fn write(&mut self, bytes: &[u8]) -> Result<usize, Failed>
        ensures { MatchResult result (λ n. Took n bytes.now (told self.old) (told self.new)) (λ _. WriteFailed (told self.old) (told self.new)) };
}
