//! A picture of what a run does, as SVG.
#![tactic(auto)]

mod chart;
mod chart_svg;
mod drawing;

pub use chart::Chart;
pub use chart_svg::chart_text;
pub use drawing::draw;
