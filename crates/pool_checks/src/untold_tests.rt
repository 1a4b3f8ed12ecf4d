//! Runs over regions that tell nothing: what is read comes from them.
use crate::untold_pages::UntoldPages;
use pool_forms::{output_text, read_input, threads_text};
use pool_run::run_schedule;
use pool_types::PageSize;
use pool_workers::run_threads;
use std::test::*;

const FIRST: &str = r#"{"config":{"total_memories":1},
"modules":[{"memories":[{"min":1,"image":{"offset":0,"hex":"696e6974"}}]}],
"parties":[{"commands":[{"do":"instantiate","module":0},{"do":"write","of":0,"at":4,"hex":"64697274"},
{"do":"drop","of":0},{"do":"instantiate","module":0},{"do":"read","of":3,"at":0,"len":8}]}]}"#;

const OUTPUT: &str = "\
0.0: granted memories 0 tables -
0.1: done
0.2: returned
0.3: granted memories 0 tables -
0.4: bytes 5a5a5a5a5a5a5a5a
metrics core=1 component=0 memories=1 tables=0 stacks=0 heaps=0 warm_memories=0 memory_resident=0 warm_tables=0 table_resident=0 warm_stacks=0 stack_resident=none
pages expose=1 hide=0 map_image=2 remap_zeros=1 erase=0 recolour=0 decommit=1
";

const ON_THREADS: &str = "\
0.0: granted memories 0 tables -
0.1: done
0.2: returned
0.3: granted memories 0 tables -
0.4: bytes 5a5a5a5a5a5a5a5a
closed
";

// The regions don't read as the image that was mapped, so it is mapped again.
#[test]
fn reads_what_the_pages_hold(rt: HostRuntime) -> Result<(), Fail> {
    let alloc = rt.alloc();
    let page = PageSize::new(4096)?;
    let input = read_input(alloc, FIRST.as_bytes())?;
    let mut pages = UntoldPages { page, next: 0 };
    let output = run_schedule(alloc, &input, &mut pages)?;
    let text = output_text(alloc, &input, &output)?;
    assert_eq!(rt; text.as_str(), OUTPUT);
    let mut pages = UntoldPages { page, next: 0 };
    let output = run_threads(&rt, alloc, &input, &mut pages)?;
    let text = threads_text(alloc, &input, output.replies.as_slice())?;
    assert_eq!(rt; text.as_str(), ON_THREADS);
    Ok(())
}
