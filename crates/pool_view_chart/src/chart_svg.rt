use crate::chart::{Chart, CommandSpan, SlotState, Span};
use pool_index::SlotKind;
use pool_view_steps::kind_name;
use std::alloc::{AllocError, Global};
use std::fmt::Write;

// All lengths are in thousandths of a unit of the picture, which is 1,200 units wide.
const WIDTH: u64 = 1_200_000;

const LEFT: u64 = 80_000;

const PLOT: u64 = 1_100_000;

const TOP: u64 = 40_000;

/// The colours of modules, by Okabe and Ito, which colour-blind people tell apart, and grey for what is of no module.
const COLOURS: [&str; 8] = [
    "#e69f00", "#56b4e9", "#009e73", "#f0e442", "#0072b2", "#d55e00", "#cc79a7", "#999999",
];

/// Where rows and lanes lie.
#[derive(Clone, Copy, Debug, PartialEq, Eq)]
struct Places {
    steps: u64,
    row: u64,
    lanes: u64,
    lane: u64,
    legend: u64,
    height: u64,
}

// The height of each of so many rows, between these bounds, where all are to have this much.
fn height_of(all: u64, count: usize, least: u64, most: u64) -> u64 {
    let each = all.checked_div(count as u64).unwrap_or(most);
    each.max(least).min(most)
}

fn places_of(chart: &Chart) -> Places {
    let rows = chart.rows.all();
    let row = height_of(900_000, rows, 2_000, 16_000);
    let lane = height_of(400_000, chart.parties, 6_000, 16_000);
    let lanes = row
        .saturating_mul(rows as u64)
        .saturating_add(TOP)
        .saturating_add(20_000);
    let legend = lane
        .saturating_mul(chart.parties as u64)
        .saturating_add(lanes)
        .saturating_add(20_000);
    Places {
        steps: chart.steps.max(1),
        row,
        lanes,
        lane,
        legend,
        height: legend.saturating_add(50_000),
    }
}

// Adds a length.
fn push_length(out: &mut String, length: u64) -> Result<(), AllocError> {
    let whole = length / 1000;
    let part = length % 1000;
    if part == 0 {
        return write!(out, "{whole}");
    }
    let tenths = part / 100;
    let hundredths = part / 10 % 10;
    write!(out, "{whole}.{tenths}{hundredths}")
}

fn push_attribute(out: &mut String, name: &str, length: u64) -> Result<(), AllocError> {
    write!(out, " {name}=\"")?;
    push_length(out, length)?;
    out.push_str("\"")
}

fn push_rect(
    out: &mut String,
    x: u64,
    y: u64,
    width: u64,
    height: u64,
    style: &str,
) -> Result<(), AllocError> {
    out.push_str("<rect")?;
    push_attribute(out, "x", x)?;
    push_attribute(out, "y", y)?;
    push_attribute(out, "width", width)?;
    push_attribute(out, "height", height)?;
    write!(out, " {style}/>\n")
}

fn push_text(out: &mut String, x: u64, y: u64, style: &str, text: &str) -> Result<(), AllocError> {
    out.push_str("<text")?;
    push_attribute(out, "x", x)?;
    push_attribute(out, "y", y)?;
    write!(out, " {style}>{text}</text>\n")
}

impl Places {
    // Where a step lies, from left to right.
    fn x(&self, step: u64) -> u64 {
        let along = step
            .saturating_mul(PLOT)
            .checked_div(self.steps)
            .unwrap_or(0);
        along.saturating_add(LEFT)
    }

    fn row_y(&self, row: usize) -> u64 {
        self.row.saturating_mul(row as u64).saturating_add(TOP)
    }

    fn lane_y(&self, party: usize) -> u64 {
        self.lane
            .saturating_mul(party as u64)
            .saturating_add(self.lanes)
    }

    // The width from one step to another, which is to be seen.
    fn width(&self, from: u64, to: u64) -> u64 {
        self.x(to).saturating_sub(self.x(from)).max(300)
    }
}

// The place of the colour of a module, and the last for none.
fn colour_of(module: Option<usize>) -> usize {
    match module {
        None => 7,
        Some(module) => module % 7,
    }
}

fn colour_at(at: usize) -> &'static str {
    match COLOURS.get(at) {
        None => "#999999",
        Some(colour) => colour,
    }
}

// The patterns of slots that are queued, one for each colour.
fn push_patterns(out: &mut String) -> Result<(), AllocError> {
    out.push_str("<defs>\n")?;
    for at in 0..8usize {
        let colour = colour_at(at);
        write!(
            out,
            "<pattern id=\"q{at}\" width=\"5\" height=\"5\" patternUnits=\"userSpaceOnUse\" patternTransform=\"rotate(45)\"><rect width=\"5\" height=\"5\" fill=\"#ffffff\"/><rect width=\"2\" height=\"5\" fill=\"{colour}\"/></pattern>\n"
        )?;
    }
    out.push_str("</defs>\n")
}

// Adds the style of a slot that is in this state, of the colour at this place.
fn push_state(out: &mut String, state: SlotState, at: usize) -> Result<(), AllocError> {
    let colour = colour_at(at);
    match state {
        SlotState::Free => out.push_str("fill=\"#f2f2f2\""),
        SlotState::Picked => write!(out, "fill=\"{colour}\" fill-opacity=\"0.35\""),
        SlotState::Granted => write!(out, "fill=\"{colour}\""),
        SlotState::Queued => write!(out, "fill=\"url(#q{at})\""),
    }
}

fn style_of(alloc: Global, state: SlotState, at: usize) -> Result<String, AllocError> {
    let mut style = String::new(alloc);
    push_state(&mut style, state, at)?;
    Ok(style)
}

// The number of a module, where there is room for it.
fn push_module(
    alloc: Global,
    out: &mut String,
    places: &Places,
    row: usize,
    span: &Span,
) -> Result<(), AllocError> {
    let Some(module) = span.module else {
        return Ok(());
    };
    let roomy = places.width(span.from, span.to) >= 14_000 && places.row >= 9_000;
    if !roomy || span.state != SlotState::Granted {
        return Ok(());
    }
    let text = format!(in alloc; "{module}")?;
    let x = places.x(span.from).saturating_add(3_000);
    let y = places
        .row_y(row)
        .saturating_add(places.row / 2)
        .saturating_add(3_500);
    push_text(out, x, y, "font-size=\"9\"", text.as_str())
}

fn push_span(
    alloc: Global,
    out: &mut String,
    places: &Places,
    row: usize,
    span: &Span,
) -> Result<(), AllocError> {
    let style = style_of(alloc, span.state, colour_of(span.module))?;
    let height = places.row.saturating_sub(places.row / 8);
    push_rect(
        out,
        places.x(span.from),
        places.row_y(row),
        places.width(span.from, span.to),
        height,
        style.as_str(),
    )?;
    push_module(alloc, out, places, row, span)
}

// Whether the row of this number of its kind has a label.
fn has_label(places: &Places, number: usize) -> bool {
    places.row >= 9_000 || number % 10 == 0
}

fn push_rows(
    alloc: Global,
    out: &mut String,
    chart: &Chart,
    places: &Places,
    kind: SlotKind,
    count: usize,
) -> Result<(), AllocError> {
    let first = chart.rows.before(kind);
    let name = kind_name(kind);
    for number in 0..count {
        let y = places.row_y(first.saturating_add(number));
        let height = places.row.saturating_sub(places.row / 8);
        push_rect(out, LEFT, y, PLOT, height, "fill=\"#f2f2f2\"")?;
        if has_label(places, number) {
            let text = format!(in alloc; "{name} {number}")?;
            let base = y.saturating_add(places.row / 2).saturating_add(3_500);
            push_text(out, 76_000, base, "text-anchor=\"end\"", text.as_str())?;
        }
    }
    Ok(())
}

// A cross of this half a width.
fn push_refusal(out: &mut String, x: u64, y: u64, half: u64) -> Result<(), AllocError> {
    out.push_str("<path d=\"M")?;
    push_length(out, x.saturating_sub(half))?;
    out.push_str(" ")?;
    push_length(out, y.saturating_sub(half))?;
    out.push_str("L")?;
    push_length(out, x.saturating_add(half))?;
    out.push_str(" ")?;
    push_length(out, y.saturating_add(half))?;
    out.push_str("M")?;
    push_length(out, x.saturating_add(half))?;
    out.push_str(" ")?;
    push_length(out, y.saturating_sub(half))?;
    out.push_str("L")?;
    push_length(out, x.saturating_sub(half))?;
    out.push_str(" ")?;
    push_length(out, y.saturating_add(half))?;
    out.push_str("\" stroke=\"#000000\" stroke-width=\"1.5\"/>\n")
}

fn lane_style(span: &CommandSpan) -> &'static str {
    if span.refused {
        "fill=\"#ffffff\" stroke=\"#000000\" stroke-width=\"0.5\""
    } else if span.ended {
        "fill=\"#cccccc\" stroke=\"#666666\" stroke-width=\"0.5\""
    } else {
        "fill=\"#ffffff\" stroke=\"#666666\" stroke-width=\"0.5\" stroke-dasharray=\"2 2\""
    }
}

fn push_command(
    alloc: Global,
    out: &mut String,
    places: &Places,
    span: &CommandSpan,
) -> Result<(), AllocError> {
    let y = places.lane_y(span.party);
    let height = places.lane.saturating_sub(places.lane / 5);
    let x = places.x(span.from);
    let width = places.width(span.from, span.to);
    push_rect(out, x, y, width, height, lane_style(span))?;
    if width >= 16_000 && places.lane >= 9_000 {
        let command = span.command;
        let text = format!(in alloc; "{command}")?;
        let base = y.saturating_add(height / 2).saturating_add(3_500);
        push_text(
            out,
            x.saturating_add(2_000),
            base,
            "font-size=\"9\"",
            text.as_str(),
        )?;
    }
    Ok(())
}

// Crosses where a command was refused: in its lane, and above all rows.
fn push_refused(out: &mut String, places: &Places, span: &CommandSpan) -> Result<(), AllocError> {
    let end = places.x(span.to);
    let height = places.lane.saturating_sub(places.lane / 5);
    let middle = places.lane_y(span.party).saturating_add(height / 2);
    push_refusal(out, end, middle, (height / 2).min(4_000))?;
    push_refusal(out, end, TOP.saturating_sub(6_000), 4_000)
}

fn push_lanes(
    alloc: Global,
    out: &mut String,
    chart: &Chart,
    places: &Places,
) -> Result<(), AllocError> {
    for party in 0..chart.parties {
        if places.lane < 9_000 && party % 10 != 0 {
            continue;
        }
        let text = format!(in alloc; "party {party}")?;
        let base = places
            .lane_y(party)
            .saturating_add(places.lane / 2)
            .saturating_add(3_000);
        push_text(out, 76_000, base, "text-anchor=\"end\"", text.as_str())?;
    }
    for span in &chart.commands {
        push_command(alloc, out, places, span)?;
    }
    for span in &chart.commands {
        if span.refused {
            push_refused(out, places, span)?;
        }
    }
    Ok(())
}

// The numbers of five steps above the rows.
fn push_axis(alloc: Global, out: &mut String, places: &Places) -> Result<(), AllocError> {
    for quarter in 0..5u64 {
        let step = places.steps.saturating_mul(quarter) / 4;
        let text = format!(in alloc; "{step}")?;
        push_text(
            out,
            places.x(step),
            20_000,
            "text-anchor=\"middle\"",
            text.as_str(),
        )?;
    }
    push_text(out, 76_000, 20_000, "text-anchor=\"end\"", "step")
}

fn push_key(
    alloc: Global,
    out: &mut String,
    x: u64,
    y: u64,
    state: SlotState,
    at: usize,
    text: &str,
) -> Result<(), AllocError> {
    let style = style_of(alloc, state, at)?;
    push_rect(out, x, y, 14_000, 10_000, style.as_str())?;
    push_text(
        out,
        x.saturating_add(18_000),
        y.saturating_add(9_000),
        "",
        text,
    )
}

// What the colours and the tones mean.
fn push_legend(
    alloc: Global,
    out: &mut String,
    places: &Places,
    modules: usize,
) -> Result<(), AllocError> {
    let y = places.legend;
    push_key(alloc, out, 80_000, y, SlotState::Granted, 7, "granted")?;
    push_key(alloc, out, 180_000, y, SlotState::Picked, 7, "picked")?;
    push_key(
        alloc,
        out,
        280_000,
        y,
        SlotState::Queued,
        7,
        "queued or in a flush",
    )?;
    push_key(alloc, out, 430_000, y, SlotState::Free, 7, "free (empty)")?;
    push_refusal(out, 545_000, y.saturating_add(5_000), 4_000)?;
    push_text(out, 555_000, y.saturating_add(9_000), "", "refused")?;
    let below = y.saturating_add(20_000);
    for module in 0..modules.min(7) {
        let x = (module as u64)
            .saturating_mul(90_000)
            .saturating_add(80_000);
        let text = if modules > 7 {
            format!(in alloc; "module {module}, ..")?
        } else {
            format!(in alloc; "module {module}")?
        };
        push_key(
            alloc,
            out,
            x,
            below,
            SlotState::Granted,
            module,
            text.as_str(),
        )?;
    }
    let x = (modules.min(7) as u64)
        .saturating_mul(90_000)
        .saturating_add(80_000);
    push_key(alloc, out, x, below, SlotState::Granted, 7, "of no module")
}

fn push_slots(
    alloc: Global,
    out: &mut String,
    chart: &Chart,
    places: &Places,
) -> Result<(), AllocError> {
    let rows = chart.rows;
    push_rows(alloc, out, chart, places, SlotKind::Memory, rows.memories)?;
    push_rows(alloc, out, chart, places, SlotKind::Table, rows.tables)?;
    push_rows(alloc, out, chart, places, SlotKind::Stack, rows.stacks)?;
    push_rows(alloc, out, chart, places, SlotKind::Heap, rows.heaps)?;
    for span in &chart.spans {
        push_span(alloc, out, places, rows.row(span.slot), span)?;
    }
    Ok(())
}

/// The picture of a run, as SVG: a row for each slot, steps to the right, and a lane for each party below. It scales to the number
/// of steps and of slots.
pub fn chart_text(alloc: Global, chart: &Chart, modules: usize) -> Result<String, AllocError> {
    let places = places_of(chart);
    let mut out = String::new(alloc);
    out.push_str("<svg xmlns=\"http://www.w3.org/2000/svg\" viewBox=\"0 0 1200 ")?;
    push_length(&mut out, places.height)?;
    out.push_str("\" font-family=\"sans-serif\" font-size=\"10\">\n")?;
    push_patterns(&mut out)?;
    push_rect(&mut out, 0, 0, WIDTH, places.height, "fill=\"#ffffff\"")?;
    push_axis(alloc, &mut out, &places)?;
    push_slots(alloc, &mut out, chart, &places)?;
    push_lanes(alloc, &mut out, chart, &places)?;
    push_legend(alloc, &mut out, &places, modules)?;
    out.push_str("</svg>\n")?;
    Ok(out)
}
