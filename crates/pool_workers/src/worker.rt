use pool_pages::Pages;
use pool_run::{ReplyList, RunningParty};

/// A party's worker: the party's number, its seat, the party, and its replies, once it has them.
#[derive(Drop)]
pub struct Worker<S: Drop, P: Pages> {
    pub number: usize,
    pub seat: S,
    pub party: RunningParty<P>,
    pub replies: Option<ReplyList>,
}
