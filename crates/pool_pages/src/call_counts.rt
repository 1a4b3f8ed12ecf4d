ghost use Rattle.std.specs.Prelude.{◌≡◌};
ghost use Rattle.pool_types.specs.Rising.{risen};
ghost use Rattle.pool_pages.specs.CallSums.{added};
ghost use Rattle.pool_pages.specs.MakerTold.{no_calls};
ghost use Rattle.pool_pages.specs.FailingTold.{no_counts, one_more_call, counts_after_call};

use crate::pages::PageCalls;

/// One more, for a count that stands still at the end of its type.
pub(crate) fn risen(count: u64) -> u64
    ensures { result ≡ risen count }
{
    count.saturating_add(1)
}

/// A call on the pages of a range that may fail.
#[derive(Clone, Copy, Debug, PartialEq, Eq)]
pub(crate) enum CallKind {
    Expose,
    Hide,
    MapImage,
    RemapZeros,
    Erase,
    Recolour,
    Decommit,
}

/// How many calls were made, how many of each kind, and how many a list refused.
#[derive(Clone, Copy, Debug, PartialEq, Eq)]
pub struct CallCounts {
    pub made: u64,
    pub calls: PageCalls,
    pub refused: u64,
}

impl PageCalls {
    /// No calls.
    pub fn none() -> PageCalls
        ensures { result ≡ no_calls }
    {
        PageCalls {
            expose: 0,
            hide: 0,
            map_image: 0,
            remap_zeros: 0,
            erase: 0,
            recolour: 0,
            decommit: 0,
        }
    }

    /// The calls of both, each count of which stands still at the end of its type.
    pub fn plus(self, other: PageCalls) -> PageCalls
        ensures { result ≡ added self other }
    {
        PageCalls {
            expose: self.expose.saturating_add(other.expose),
            hide: self.hide.saturating_add(other.hide),
            map_image: self.map_image.saturating_add(other.map_image),
            remap_zeros: self.remap_zeros.saturating_add(other.remap_zeros),
            erase: self.erase.saturating_add(other.erase),
            recolour: self.recolour.saturating_add(other.recolour),
            decommit: self.decommit.saturating_add(other.decommit),
        }
    }

    /// One more call of a kind.
    pub(crate) fn raised(self, kind: CallKind) -> PageCalls
        ensures { result ≡ one_more_call kind self }
    {
        match kind {
            CallKind::Expose => PageCalls {
                expose: risen(self.expose),
                ..self
            },
            CallKind::Hide => PageCalls {
                hide: risen(self.hide),
                ..self
            },
            CallKind::MapImage => PageCalls {
                map_image: risen(self.map_image),
                ..self
            },
            CallKind::RemapZeros => PageCalls {
                remap_zeros: risen(self.remap_zeros),
                ..self
            },
            CallKind::Erase => PageCalls {
                erase: risen(self.erase),
                ..self
            },
            CallKind::Recolour => PageCalls {
                recolour: risen(self.recolour),
                ..self
            },
            CallKind::Decommit => PageCalls {
                decommit: risen(self.decommit),
                ..self
            },
        }
    }
}

impl CallCounts {
    pub(crate) fn none() -> CallCounts
        ensures { result ≡ no_counts }
    {
        CallCounts {
            made: 0,
            calls: PageCalls::none(),
            refused: 0,
        }
    }

    /// After a call on a range of this length, which the list refused or not.
    pub(crate) fn after(self, kind: CallKind, len: usize, refused: bool) -> CallCounts
        ensures { result ≡ counts_after_call kind len refused self }
    {
        let refusals = if refused {
            risen(self.refused)
        } else {
            self.refused
        };
        if len == 0 {
            CallCounts {
                refused: refusals,
                ..self
            }
        } else {
            CallCounts {
                made: risen(self.made),
                calls: self.calls.raised(kind),
                refused: refusals,
            }
        }
    }
}
