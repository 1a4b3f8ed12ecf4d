//! A program that measures a cycle of an instance at the pool for threads: it is made, eight bytes are written into its memory, and it
//! goes back.
//!
//! `pool_cycles THREADS SHARDS TIMES` makes an allocator with 256 slots for memories and so many shards, lets one thread or four go
//! through so many cycles each, closes the allocator, and prints how many cycles were done. What it costs is measured from outside:
//! the difference of two runs with different numbers of cycles is that of the cycles alone.
//!
//! Its callers are those of `pool_uses`. It is no port.
//!
//! ```text
//! rt try -- 4 16 1000
//! ```
#![tactic(auto)]

mod measure;

use measure::measure;
use std::env;
use std::process::ExitCode;

// What a word says, where it is a number.
fn number(word: Option<String>) -> Option<u32> {
    word?.parse().ok()
}

fn main(rt: HostRuntime) -> ExitCode {
    let alloc = rt.alloc();
    let Ok(words) = env::args(&rt) else {
        return ExitCode::FAILURE;
    };
    let mut words = words.skip(1);
    let threads = number(words.next());
    let shards = number(words.next());
    let times = number(words.next());
    let (Some(threads @ (1 | 4)), Some(shards), Some(times)) = (threads, shards, times) else {
        let _ = eprintln!(&rt; "usage: pool_cycles 1|4 SHARDS TIMES");
        return ExitCode::from(2);
    };
    match measure(&rt, alloc, threads == 4, shards, times) {
        Ok(done) => {
            let _ = println!(&rt; "{done} cycles");
            ExitCode::SUCCESS
        }
        Err(refusal) => {
            let _ = eprintln!(&rt; "{refusal:?}");
            ExitCode::FAILURE
        }
    }
}
