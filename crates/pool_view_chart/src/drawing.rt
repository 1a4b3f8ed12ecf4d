ghost use Rattle.std.specs.Prelude.{◌≡◌, true, Err};
ghost use Rattle.pool_run.specs.Built.{is_built};
ghost use Rattle.pool_run.specs.Runs.{with_faults};
ghost use Rattle.pool_view_steps.specs.Shown.{IsUnmade};

use crate::chart::Chart;
use crate::chart_svg::chart_text;
use pool_pages::PageMaker;
use pool_run::{Input, run_watched};
use pool_view_steps::{ShowFault, fault_of_run};
use std::alloc::{AllocError, Global};

fn picture_of(alloc: Global, chart: &mut Chart, input: &Input) -> Result<String, AllocError> {
    chart.end()?;
    chart_text(alloc, chart, input.modules.len())
}

/// Runs the input, whose settings break no rule, and draws it.
pub fn draw<M: PageMaker>(alloc: Global, input: &Input, pages: &mut M) -> Result<String, ShowFault>
    requires { is_built input.now ≡ true }
    ensures unmade { result ≡ Err ShowFault.PageFault → IsUnmade input.now (with_faults input.now (M.told pages.old)) }
{
    let Ok(mut chart) = Chart::new(alloc, input) else {
        return Err(ShowFault::Memory);
    };
    match run_watched(alloc, input, pages, &mut chart) {
        Ok(_output) => match picture_of(alloc, &mut chart, input) {
            Ok(text) => Ok(text),
            Err(_) => Err(ShowFault::Memory),
        },
        Err(fault) => Err(fault_of_run(fault)),
    }
}
