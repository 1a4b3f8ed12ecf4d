/// What a decommit leaves on a page: zeros, or what its image has there.
#[derive(Clone, Copy, Debug, PartialEq, Eq)]
pub enum DecommitBehavior {
    Zero,
    RestoreOriginalMapping,
}
