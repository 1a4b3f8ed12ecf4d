//! Parties on threads of their own: that they run side by side, and that as many requests are granted as there are slots.
use pool_forms::read_input;
use pool_pages::MemoryPages;
use pool_run::{Refusal, Reply, ReplyList};
use pool_slots::AllocError as Cause;
use pool_threads::Gate;
use pool_types::PageSize;
use pool_workers::{run_threads, run_threads_with};
use std::sync::atomic::{AtomicU64, Ordering};
use std::test::*;
use std::thread;

// How often a held party looks whether it may go on, at most.
const TURNS: u32 = 100_000;

// Holds the first party's first command until the second party's first has its reply.
#[derive(Drop)]
struct HoldsTheFirst {
    answered: AtomicU64,
    in_time: AtomicU64,
}

impl Gate for HoldsTheFirst {
    fn before(&self, worker: u32, command: u32) {
        if worker == 0 && command == 0 {
            for _ in 0..TURNS {
                if self.answered.load(Ordering::SeqCst) == 1 {
                    self.in_time.store(1, Ordering::SeqCst);
                    return;
                }
                thread::yield_now();
            }
        }
    }

    fn after(&self, worker: u32, command: u32) {
        if worker == 1 && command == 0 {
            self.answered.store(1, Ordering::SeqCst);
        }
    }
}

const TWO: &str = r#"{"config":{"total_stacks":2,"stack_size":8192},
"parties":[{"commands":[{"do":"stack"}]},{"commands":[{"do":"stack"}]}]}"#;

#[test]
fn parties_run_side_by_side(rt: HostRuntime) -> Result<(), Fail> {
    let alloc = rt.alloc();
    let input = read_input(alloc, TWO.as_bytes())?;
    let mut pages = MemoryPages::new(PageSize::new(4096)?);
    let gate = HoldsTheFirst {
        answered: AtomicU64::new(0),
        in_time: AtomicU64::new(0),
    };
    let _output = run_threads_with(&rt, alloc, &input, &mut pages, &gate)?;
    assert_eq!(rt; gate.in_time.load(Ordering::SeqCst), 1);
    Ok(())
}

// Whether there was no room for a request.
fn is_full(reply: &Reply) -> bool {
    matches!(reply, Reply::Refused(Refusal::Alloc(Cause::Limit(_))))
}

// How many requests there was room for, where all others were refused for want of it.
fn granted(replies: &[ReplyList]) -> Option<u32> {
    let mut count: u32 = 0;
    for at in 0..replies.len() {
        for reply in replies[at].as_slice() {
            match reply {
                Reply::Stack(_) => count = count.wrapping_add(1),
                _ if is_full(reply) => {}
                _ => return None,
            }
        }
    }
    Some(count)
}

// Eight parties ask for a stack each, and none gives it back.
const EIGHT: &str = r#"{"config":{"total_stacks":3,"stack_size":8192},
"parties":[{"commands":[{"do":"stack"}]},{"home":1,"commands":[{"do":"stack"}]},{"home":2,"commands":[{"do":"stack"}]},
{"home":3,"commands":[{"do":"stack"}]},{"home":4,"commands":[{"do":"stack"}]},{"home":5,"commands":[{"do":"stack"}]},
{"home":6,"commands":[{"do":"stack"}]},{"home":7,"commands":[{"do":"stack"}]}]}"#;

#[test]
fn as_many_are_granted_as_there_are(rt: HostRuntime) -> Result<(), Fail> {
    let alloc = rt.alloc();
    let page = PageSize::new(4096)?;
    let input = read_input(alloc, EIGHT.as_bytes())?;
    for _ in 0..20 {
        let mut pages = MemoryPages::new(page);
        let output = run_threads(&rt, alloc, &input, &mut pages)?;
        assert_eq!(rt; granted(output.replies.as_slice()), Some(3));
    }
    Ok(())
}
