use crate::errors::PictureError;
use crate::labels::{Family, label_of};
use crate::layout::{across, column, down, height, width};
use crate::runs::{Post, PostName, Run, Taken};
use crate::svg::push_text;
use std::alloc::{AllocError, Global};

/// The most characters of a call that are shown.
const LONGEST_CALL: usize = 58;

/// The most characters of a message that are shown.
const LONGEST_LABEL: usize = 24;

/// How far a post of an actor to itself bows out, in pixels.
const BOW: usize = 40;

/// The diagrams of the runs of a report, one below the other.
pub fn picture(alloc: Global, runs: &[Run]) -> Result<String, PictureError> {
    let mut svg = String::new(alloc);
    head(&mut svg, runs)?;
    let mut top = 0_usize;
    for run in runs {
        diagram(alloc, &mut svg, run, top)?;
        top = top.saturating_add(height(run.entries.len()));
    }
    svg.push_str("</svg>\n")?;
    Ok(svg)
}

/// The diagram of a run, so far down.
fn diagram(alloc: Global, svg: &mut String, run: &Run, top: usize) -> Result<(), PictureError> {
    if top == 0 {
        return draw(alloc, svg, run);
    }
    write!(svg, "<g transform=\"translate(0 {top})\">\n")?;
    draw(alloc, svg, run)?;
    svg.push_str("</g>\n")?;
    Ok(())
}

/// The parts of a diagram, those in front last.
fn draw(alloc: Global, svg: &mut String, run: &Run) -> Result<(), PictureError> {
    title(svg, run)?;
    epochs(svg, run)?;
    lines(svg, run)?;
    calls(svg, run)?;
    for post in &run.posts {
        arrows(alloc, svg, run, post)?;
    }
    points(svg, run)?;
    Ok(())
}

/// The size, that of the widest run and of all heights, and what all diagrams share.
fn head(svg: &mut String, runs: &[Run]) -> Result<(), AllocError> {
    let mut wide = 0_usize;
    let mut high = 0_usize;
    for run in runs {
        wide = wide.max(width(run.actors.names().len()));
        high = high.saturating_add(height(run.entries.len()));
    }
    write!(
        svg,
        "<svg xmlns=\"http://www.w3.org/2000/svg\" width=\"{wide}\" height=\"{high}\" viewBox=\"0 0 {wide} {high}\" font-family=\"ui-sans-serif, system-ui, sans-serif\" font-size=\"12\">\n"
    )?;
    svg.push_str("<rect width=\"100%\" height=\"100%\" fill=\"#ffffff\"/>\n<defs>")?;
    for family in Family::ALL {
        let color = family.color();
        let name = family.word();
        write!(
            svg,
            "<marker id=\"{name}\" viewBox=\"0 0 8 8\" refX=\"8\" refY=\"4\" markerWidth=\"7\" markerHeight=\"7\" orient=\"auto\"><path d=\"M0 0L8 4L0 8z\" fill=\"{color}\"/></marker>"
        )?;
    }
    svg.push_str("</defs>\n")
}

/// The title of a diagram and its legend.
fn title(svg: &mut String, run: &Run) -> Result<(), AllocError> {
    svg.push_str("<text x=\"16\" y=\"28\" font-size=\"16\" font-weight=\"600\">space ")?;
    push_text(svg, run.space, 40)?;
    svg.push_str("</text>\n")?;
    legend(svg)
}

/// The families of messages with their colors.
fn legend(svg: &mut String) -> Result<(), AllocError> {
    let mut left = 16_usize;
    for family in Family::ALL {
        let (color, name) = (family.color(), family.name());
        let text = left.saturating_add(24);
        let end = left.saturating_add(20);
        write!(
            svg,
            "<path d=\"M{left} 48H{end}\" stroke=\"{color}\" stroke-width=\"2\"/><text x=\"{text}\" y=\"52\" fill=\"{color}\">{name}</text>\n"
        )?;
        left = text
            .saturating_add(name.len().saturating_mul(7))
            .saturating_add(14);
    }
    Ok(())
}

/// The configurations: the first one's band behind all, the name of each later one at the entry
/// that issues it, and for each actor a band from the entry at which it adopts one. So it shows who
/// works in which epoch side by side with others.
fn epochs(svg: &mut String, run: &Run) -> Result<(), AllocError> {
    let wide = width(run.actors.names().len());
    band(svg, run, 1, 1, (0, wide))?;
    name_of_epoch(svg, wide, 1, 1)?;
    let mut newest = 1_u64;
    for post in &run.posts {
        let epoch = brought_by(post).unwrap_or(0);
        if epoch > newest {
            name_of_epoch(svg, wide, epoch, post.name.entry)?;
            newest = epoch;
        }
    }
    for (line, name) in run.actors.names().iter().enumerate() {
        adopted(svg, run, line, name)?;
    }
    Ok(())
}

/// The bands of an actor: one from each entry that gives it a configuration of a higher epoch.
fn adopted(svg: &mut String, run: &Run, line: usize, name: &str) -> Result<(), AllocError> {
    let mut own = 1_u64;
    for (place, entry) in run.entries.iter().enumerate() {
        if entry.actor != name {
            continue;
        }
        let number = place.saturating_add(1);
        let epoch = given_at(run, number, entry.taken);
        if epoch > own {
            band(svg, run, epoch, number, column(line))?;
            own = epoch;
        }
    }
    Ok(())
}

/// The highest epoch of the configurations that an entry takes or issues, or 0.
fn given_at(run: &Run, number: usize, taken: Taken) -> u64 {
    let mut given = 0_u64;
    for post in &run.posts {
        if post.name.entry == number || taken == Taken::Delivered(post.name) {
            given = given.max(brought_by(post).unwrap_or(0));
        }
    }
    given
}

/// The epoch of the configuration that a post brings.
fn brought_by(post: &Post) -> Option<u64> {
    if post.kind != "install" {
        return None;
    }
    post.fields.strip_prefix("epoch ")?.parse::<u64>().ok()
}

/// The band of one configuration from an entry down, between two edges; every second one is shaded.
fn band(
    svg: &mut String,
    run: &Run,
    epoch: u64,
    from: usize,
    edges: (usize, usize),
) -> Result<(), AllocError> {
    let (left, right) = edges;
    let top = down(from).saturating_sub(12);
    let end = down(run.entries.len().saturating_add(1)).saturating_sub(12);
    let (wide, high) = (right.saturating_sub(left), end.saturating_sub(top));
    let color = if epoch % 2 == 0 { "#f3f0e6" } else { "#f7f9fb" };
    write!(
        svg,
        "<rect x=\"{left}\" y=\"{top}\" width=\"{wide}\" height=\"{high}\" fill=\"{color}\"/>\n"
    )
}

/// The name of an epoch, on the right at an entry.
fn name_of_epoch(
    svg: &mut String,
    wide: usize,
    epoch: u64,
    entry: usize,
) -> Result<(), AllocError> {
    let right = wide.saturating_sub(12);
    let base = down(entry).saturating_add(4);
    write!(
        svg,
        "<text x=\"{right}\" y=\"{base}\" text-anchor=\"end\" fill=\"#8a8f98\">epoch {epoch}</text>\n"
    )
}

/// The line of each actor with its name above, dashed from where a server halts.
fn lines(svg: &mut String, run: &Run) -> Result<(), AllocError> {
    let bottom = down(run.entries.len()).saturating_add(16);
    for (line, name) in run.actors.names().iter().enumerate() {
        let x = across(line);
        let end = halt_of(run, name).map_or(bottom, down);
        write!(
            svg,
            "<text x=\"{x}\" y=\"88\" text-anchor=\"middle\" font-weight=\"600\">{name}</text><path d=\"M{x} 98V{end}\" stroke=\"#b9c0c8\"/>"
        )?;
        write!(
            svg,
            "<path d=\"M{x} {end}V{bottom}\" stroke=\"#d5d9de\" stroke-dasharray=\"2 5\"/>\n"
        )?;
    }
    Ok(())
}

/// The entry at which an actor halts, of itself or because it is told to.
fn halt_of(run: &Run, name: &str) -> Option<usize> {
    for (place, entry) in run.entries.iter().enumerate() {
        if entry.actor == name && is_halt(run, entry.taken) {
            return Some(place.saturating_add(1));
        }
    }
    None
}

fn is_halt(run: &Run, taken: Taken) -> bool {
    match taken {
        Taken::Tick => false,
        Taken::Halt => true,
        Taken::Delivered(name) => run
            .posts
            .iter()
            .any(|post| post.name == name && post.kind == "die"),
    }
}

/// Each call left of the entry at which it began.
fn calls(svg: &mut String, run: &Run) -> Result<(), AllocError> {
    for call in &run.calls {
        let y = down(call.begin).saturating_add(4);
        let caller = call.caller;
        write!(
            svg,
            "<text x=\"16\" y=\"{y}\" fill=\"#1f5fa8\"><tspan font-weight=\"600\">{caller}</tspan> "
        )?;
        push_text(svg, call.told, LONGEST_CALL)?;
        svg.push_str("</text>\n")?;
    }
    Ok(())
}

/// An arrow for each delivery of a post, dashed where it isn't the first; a stub with a cross where
/// there is none.
fn arrows(alloc: Global, svg: &mut String, run: &Run, post: &Post) -> Result<(), PictureError> {
    let Some(from) = maker_of(run, post.name) else {
        return Ok(());
    };
    let label = label_of(alloc, post)?;
    let to = across(run.actors.line_of(post.to));
    let mut delivered = false;
    for (place, entry) in run.entries.iter().enumerate() {
        if entry.taken != Taken::Delivered(post.name) {
            continue;
        }
        let end = (to, down(place.saturating_add(1)));
        arrow(svg, post, label.as_str(), from, end, delivered)?;
        delivered = true;
    }
    if !delivered {
        stub(svg, post, label.as_str(), from, to)?;
    }
    Ok(())
}

/// Where the entry of a post stands.
fn maker_of(run: &Run, name: PostName) -> Option<(usize, usize)> {
    let entry = run.entries.get(name.entry.checked_sub(1)?)?;
    let line = run.actors.line_of(entry.actor);
    Some((across(line), down(name.entry)))
}

/// One delivery of a post.
fn arrow(
    svg: &mut String,
    post: &Post,
    label: &str,
    from: (usize, usize),
    to: (usize, usize),
    again: bool,
) -> Result<(), AllocError> {
    let family = Family::of(post.kind);
    let (color, name) = (family.color(), family.word());
    let dashes = if again {
        " stroke-dasharray=\"5 4\""
    } else {
        ""
    };
    svg.push_str("<path d=\"")?;
    way(svg, from, to)?;
    write!(
        svg,
        "\" stroke=\"{color}\" fill=\"none\"{dashes} marker-end=\"url(#{name})\"/>"
    )?;
    if again {
        return svg.push_str("\n");
    }
    told(svg, label, color, part_of_way(from, to))
}

/// A straight way from one point to another, or a bow where an actor posts to itself.
fn way(svg: &mut String, from: (usize, usize), to: (usize, usize)) -> Result<(), AllocError> {
    let ((left, top), (right, bottom)) = (from, to);
    if left != right {
        return write!(svg, "M{left} {top}L{right} {bottom}");
    }
    let bow = left.saturating_add(BOW);
    write!(
        svg,
        "M{left} {top}C{bow} {top} {bow} {bottom} {right} {bottom}"
    )
}

/// A post that nobody took.
fn stub(
    svg: &mut String,
    post: &Post,
    label: &str,
    from: (usize, usize),
    to: usize,
) -> Result<(), AllocError> {
    let color = Family::of(post.kind).color();
    let (left, top) = from;
    let (right, bottom) = part_of_way(from, (to, top.saturating_add(60)));
    write!(
        svg,
        "<path d=\"M{left} {top}L{right} {bottom}m-4 -4l8 8m0 -8l-8 8\" stroke=\"{color}\" fill=\"none\"/>"
    )?;
    told(svg, label, color, (right, bottom))
}

/// A third of the way from one point to another; beside the bow where an actor posts to itself.
fn part_of_way(from: (usize, usize), to: (usize, usize)) -> (usize, usize) {
    let x = if from.0 == to.0 {
        from.0.saturating_add(BOW)
    } else {
        third_from(from.0, to.0)
    };
    (x, third_from(from.1, to.1))
}

fn third_from(from: usize, to: usize) -> usize {
    if to >= from {
        from.saturating_add((to - from) / 3)
    } else {
        from.saturating_sub((from - to) / 3)
    }
}

/// The label of a post at a point of its arrow.
fn told(svg: &mut String, label: &str, color: &str, at: (usize, usize)) -> Result<(), AllocError> {
    let (x, y) = (at.0, at.1.saturating_sub(4));
    write!(
        svg,
        "<text x=\"{x}\" y=\"{y}\" font-size=\"10\" text-anchor=\"middle\" fill=\"{color}\" stroke=\"#ffffff\" stroke-width=\"3\" paint-order=\"stroke\">"
    )?;
    push_text(svg, label, LONGEST_LABEL)?;
    svg.push_str("</text>\n")
}

/// The point of each entry with its number; a halt is a cross.
fn points(svg: &mut String, run: &Run) -> Result<(), AllocError> {
    for (place, entry) in run.entries.iter().enumerate() {
        let number = place.saturating_add(1);
        let (x, y) = (across(run.actors.line_of(entry.actor)), down(number));
        if is_halt(run, entry.taken) {
            write!(
                svg,
                "<path d=\"M{x} {y}m-6 -6l12 12m0 -12l-12 12\" stroke=\"#b3261e\" stroke-width=\"2.5\"/>"
            )?;
        } else {
            write!(
                svg,
                "<circle cx=\"{x}\" cy=\"{y}\" r=\"3.5\" fill=\"#22272e\"/>"
            )?;
        }
        let (beside, base) = (x.saturating_add(7), y.saturating_add(11));
        write!(
            svg,
            "<text x=\"{beside}\" y=\"{base}\" font-size=\"9\" fill=\"#8a8f98\">{number}</text>\n"
        )?;
    }
    Ok(())
}
