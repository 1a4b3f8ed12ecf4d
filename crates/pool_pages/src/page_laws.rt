//! Laws of pages: what each call changes of them, page by page.
ghost use Rattle.pool_pages.specs.PageLaws.{ExposeChangesItsPages, HideChangesItsPages, MapChangesItsPages, CopyChangesItsPages, EraseChangesItsPages, RemapChangesItsPages, RecolourChangesItsPages, DecommitChangesItsPages, WriteChangesItsPages, RestoreChangesItsPages, CallsMarkAlike};

/// Each call on pages changes exactly the pages of its range: see what it makes of a page in the law of
/// its name. What it makes of dirty marks, it makes of those that contents have. Costs nothing: the laws are facts about what the calls' contracts say.
pub fn calls_change_their_pages()
    ensures expose { ExposeChangesItsPages }
    ensures hide { HideChangesItsPages }
    ensures map_image { MapChangesItsPages }
    ensures copy_image { CopyChangesItsPages }
    ensures erase { EraseChangesItsPages }
    ensures remap_zeros { RemapChangesItsPages }
    ensures recolour { RecolourChangesItsPages }
    ensures decommit { DecommitChangesItsPages }
    ensures write { WriteChangesItsPages }
    ensures restore { RestoreChangesItsPages }
    ensures marks { CallsMarkAlike }
{}
