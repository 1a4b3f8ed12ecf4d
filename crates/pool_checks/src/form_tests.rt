//! Where a text isn't an input, and why.
use pool_view_forms::{Stop, walk_run, walk_shared};
use std::test::*;

const CUT: &str = "{\"page\": 4096,\n \"parties\": [";

// A text of another form is told by its first place that has it, with a name that may be meant.
#[test]
fn the_first_place_is_told(rt: HostRuntime) -> Result<(), Fail> {
    let alloc = rt.alloc();
    for (shared, input, place, cause) in [
        (
            false,
            r#"{"config":{"total_memoris":4}}"#,
            "config.total_memoris",
            "no such field; did you mean total_memories?",
        ),
        (
            false,
            CUT,
            "line 2, column 13",
            "the text ends before its JSON does: a bracket or a quote isn't closed",
        ),
        (
            true,
            r#"{"memory":{"max":1},"events":[{"do":"wait"}]}"#,
            "events[0].do",
            "no such name: wait; did you mean wait32?",
        ),
    ] {
        let walk = if shared {
            walk_shared(alloc, input.as_bytes())
        } else {
            walk_run(alloc, input.as_bytes())
        };
        let told = match &walk {
            Err(Stop::Problem(problem)) => (problem.place.as_str(), problem.cause.as_str()),
            _ => ("", ""),
        };
        assert_eq!(rt; told, (place, cause));
    }
    Ok(())
}
