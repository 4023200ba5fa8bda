//! A picture: an SVG text that grows by what is drawn.

use super::axis::{Panel, Point};
use std::alloc::{AllocError, Global};

/// The most marks of an axis.
const MARKS: u64 = 8;

/// The style of a line. Lines differ by their strokes too, so that they can be distinguished in black and white.
#[derive(Clone, Copy)]
pub enum Style {
    /// A line, dark.
    Solid,
    /// Dashes.
    Dashed,
    /// Dots.
    Dotted,
    /// A thin line, grey.
    Thin,
}

impl Style {
    fn stroke(self) -> &'static str {
        match self {
            Style::Solid => "stroke=\"#004080\" stroke-width=\"3\"",
            Style::Dashed => "stroke=\"#b04000\" stroke-width=\"4\" stroke-dasharray=\"16 8\"",
            Style::Dotted => "stroke=\"#006030\" stroke-width=\"4\" stroke-dasharray=\"4 8\"",
            Style::Thin => "stroke=\"#707070\" stroke-width=\"2\"",
        }
    }

    fn color(self) -> &'static str {
        match self {
            Style::Solid => "#004080",
            Style::Dashed => "#b04000",
            Style::Dotted => "#006030",
            Style::Thin => "#707070",
        }
    }
}

/// What is drawn: a legend shows it next to its name.
#[derive(Clone, Copy)]
pub enum Mark {
    /// A line or steps.
    Line,
    /// A dot.
    Dot,
    /// A ring.
    Ring,
    /// A short stroke at the lower edge.
    Tick,
    /// A bar from the lower edge.
    Bar,
}

/// The height of a tick, and of the bar in a legend.
const TICK: u64 = 24;

/// The minimum height of a bar, so that it is visible.
const LOWEST: u64 = 8;

/// How the points of a line are joined.
#[derive(Clone, Copy)]
enum Joined {
    Straight,
    Stepped,
}

/// The alignment of a text at its place.
#[derive(Clone, Copy)]
enum Anchor {
    Start,
    Middle,
    End,
}

impl Anchor {
    fn word(self) -> &'static str {
        match self {
            Anchor::Start => "start",
            Anchor::Middle => "middle",
            Anchor::End => "end",
        }
    }
}

/// An SVG picture. Each call draws above what was drawn before. If an allocation fails, the picture is incomplete:
/// `finish` reports it, so that other calls need no result.
#[derive(Drop)]
pub struct Picture {
    text: String,
    /// Whether an allocation failed.
    is_cut: bool,
}

impl Picture {
    /// Returns an empty picture of this size in units, shown half as large in pixels, with a title.
    pub fn new(alloc: Global, width: u16, height: u16, title: &str) -> Self {
        let mut picture = Picture {
            text: String::new(alloc),
            is_cut: false,
        };
        picture.sheet(width, height);
        picture.write(u64::from(width / 2), 44, Anchor::Middle, title);
        picture
    }

    /// Draws a white sheet.
    fn sheet(&mut self, width: u16, height: u16) {
        let drawn = writeln!(
            self.text,
            "<svg xmlns=\"http://www.w3.org/2000/svg\" viewBox=\"0 0 {width} {height}\" width=\"{}\" height=\"{}\" \
             font-family=\"sans-serif\" font-size=\"24\">",
            width / 2,
            height / 2
        );
        self.keep(drawn);
        let drawn = writeln!(
            self.text,
            "<rect width=\"{width}\" height=\"{height}\" fill=\"white\"/>"
        );
        self.keep(drawn);
    }

    /// Records whether an allocation failed.
    fn keep(&mut self, drawn: Result<(), AllocError>) {
        if drawn.is_err() {
            self.is_cut = true;
        }
    }

    /// Returns the text of the picture, if no allocation failed.
    pub fn finish(mut self) -> Result<String, AllocError> {
        let drawn = self.text.push_str("</svg>\n");
        self.keep(drawn);
        if self.is_cut {
            Err(AllocError)
        } else {
            Ok(self.text)
        }
    }

    /// Draws the frame of a panel, marks with their numbers, and the names of its axes. Numbers are in the axes' units.
    pub fn axes(&mut self, panel: &Panel, x_name: &str, y_name: &str) {
        self.marks_across(panel);
        self.marks_down(panel);
        let drawn = writeln!(
            self.text,
            "<rect x=\"{}\" y=\"{}\" width=\"{}\" height=\"{}\" fill=\"none\" stroke=\"black\" stroke-width=\"2\"/>",
            panel.left, panel.top, panel.width, panel.height
        );
        self.keep(drawn);
        self.write(panel.right(), panel.bottom() + 62, Anchor::End, x_name);
        self.write(
            u64::from(panel.left),
            u64::from(panel.top).saturating_sub(14),
            Anchor::Start,
            y_name,
        );
    }

    /// Draws a line through points.
    pub fn line(&mut self, panel: &Panel, points: &[Point], style: Style) {
        self.path(panel, points, Joined::Straight, style);
    }

    /// Draws a line through points that stays level until the next one.
    pub fn steps(&mut self, panel: &Panel, points: &[Point], style: Style) {
        self.path(panel, points, Joined::Stepped, style);
    }

    /// Draws a dot at each point.
    pub fn dots(&mut self, panel: &Panel, points: &[Point], style: Style) {
        for point in points {
            self.dot(panel.across(point.x), panel.down(point.y), style);
        }
    }

    /// Draws a ring at each point.
    pub fn rings(&mut self, panel: &Panel, points: &[Point], style: Style) {
        for point in points {
            self.ring(panel.across(point.x), panel.down(point.y), style);
        }
    }

    /// Draws a bar from the lower edge to each point, however low that is.
    pub fn bars(&mut self, panel: &Panel, points: &[Point], style: Style) {
        for point in points {
            let bottom = panel.bottom();
            let top = panel.down(point.y).min(bottom.saturating_sub(LOWEST));
            let height = bottom.saturating_sub(top);
            self.bar(panel.across(point.x), top, height, style);
        }
    }

    /// Draws a short stroke at the lower edge for each value of the horizontal axis.
    pub fn ticks(&mut self, panel: &Panel, values: &[u64], style: Style) {
        for value in values {
            self.tick(panel.across(*value), panel.bottom(), style);
        }
    }

    /// Draws a legend: a mark in a style and its name above a panel, in the column of that number, counted from the
    /// right.
    pub fn legend(&mut self, panel: &Panel, column: u16, name: &str, mark: Mark, style: Style) {
        let left = panel
            .right()
            .saturating_sub(u64::from(column) * 330)
            .saturating_sub(310);
        let height = u64::from(panel.top).saturating_sub(22);
        match mark {
            Mark::Line => self.stroke(left, left + 60, height, style),
            Mark::Dot => self.dot(left + 50, height, style),
            Mark::Ring => self.ring(left + 50, height, style),
            Mark::Tick => self.tick(left + 50, height + TICK / 2, style),
            Mark::Bar => self.bar(left + 47, height.saturating_sub(TICK / 2), TICK, style),
        }
        self.write(left + 70, height + 8, Anchor::Start, name);
    }

    /// Draws a level stroke from one horizontal place to another.
    fn stroke(&mut self, across: u64, to_across: u64, down: u64, style: Style) {
        let drawn = writeln!(
            self.text,
            "<path fill=\"none\" {} d=\"M{across} {down}H{to_across}\"/>",
            style.stroke()
        );
        self.keep(drawn);
    }

    /// Draws a dot at a place.
    fn dot(&mut self, across: u64, down: u64, style: Style) {
        let drawn = writeln!(
            self.text,
            "<circle cx=\"{across}\" cy=\"{down}\" r=\"6\" fill=\"{}\"/>",
            style.color()
        );
        self.keep(drawn);
    }

    /// Draws a ring at a place.
    fn ring(&mut self, across: u64, down: u64, style: Style) {
        let drawn = writeln!(
            self.text,
            "<circle cx=\"{across}\" cy=\"{down}\" r=\"7\" fill=\"white\" stroke=\"{}\" stroke-width=\"3\"/>",
            style.color()
        );
        self.keep(drawn);
    }

    /// Draws a tick whose lower end is at a place.
    fn tick(&mut self, across: u64, bottom: u64, style: Style) {
        let drawn = writeln!(
            self.text,
            "<path {} d=\"M{across} {bottom}V{}\"/>",
            style.stroke(),
            bottom.saturating_sub(TICK)
        );
        self.keep(drawn);
    }

    /// Draws a bar whose upper end is at a place.
    fn bar(&mut self, across: u64, top: u64, height: u64, style: Style) {
        let drawn = writeln!(
            self.text,
            "<rect x=\"{across}\" y=\"{top}\" width=\"6\" height=\"{height}\" fill=\"{}\"/>",
            style.color()
        );
        self.keep(drawn);
    }

    /// Draws a line through points, each at another place than the one before.
    fn path(&mut self, panel: &Panel, points: &[Point], joined: Joined, style: Style) {
        let Some(first) = points.first() else {
            return;
        };
        let mut last = (panel.across(first.x), panel.down(first.y));
        self.begin(last, style);
        for point in points {
            let place = (panel.across(point.x), panel.down(point.y));
            if place != last {
                self.join(joined, place);
                last = place;
            }
        }
        let drawn = writeln!(self.text, "\"/>");
        self.keep(drawn);
    }

    /// Begins a line at a place.
    fn begin(&mut self, place: (u64, u64), style: Style) {
        let (across, down) = place;
        let drawn = write!(
            self.text,
            "<path fill=\"none\" {} d=\"M{across} {down}",
            style.stroke()
        );
        self.keep(drawn);
    }

    /// Continues a line to a place.
    fn join(&mut self, joined: Joined, place: (u64, u64)) {
        let (across, down) = place;
        let drawn = match joined {
            Joined::Straight => write!(self.text, "L{across} {down}"),
            Joined::Stepped => write!(self.text, "H{across}V{down}"),
        };
        self.keep(drawn);
    }

    /// Draws marks with their numbers below a panel.
    fn marks_across(&mut self, panel: &Panel) {
        let step = panel.x.step(MARKS);
        let mut value = panel.x.first_mark(step);
        for _ in 0..2 * MARKS {
            if value > panel.x.most {
                return;
            }
            let (across, bottom) = (panel.across(value), panel.bottom());
            self.grid(across, bottom, across, u64::from(panel.top));
            self.number(across, bottom + 30, Anchor::Middle, panel.x.number(value));
            value = value.saturating_add(step);
        }
    }

    /// Draws marks with their numbers left of a panel.
    fn marks_down(&mut self, panel: &Panel) {
        let step = panel.y.step(MARKS);
        let mut value = panel.y.first_mark(step);
        for _ in 0..2 * MARKS {
            if value > panel.y.most {
                return;
            }
            let (left, down) = (u64::from(panel.left), panel.down(value));
            self.grid(left, down, panel.right(), down);
            self.number(
                left.saturating_sub(12),
                down + 8,
                Anchor::End,
                panel.y.number(value),
            );
            value = value.saturating_add(step);
        }
    }

    /// Draws a faint line from one place to another.
    fn grid(&mut self, across: u64, down: u64, to_across: u64, to_down: u64) {
        let drawn = writeln!(
            self.text,
            "<path stroke=\"#d8d8d8\" d=\"M{across} {down}L{to_across} {to_down}\"/>"
        );
        self.keep(drawn);
    }

    /// Draws a number at a place.
    fn number(&mut self, across: u64, down: u64, anchor: Anchor, number: u64) {
        let drawn = writeln!(
            self.text,
            "<text x=\"{across}\" y=\"{down}\" text-anchor=\"{}\">{number}</text>",
            anchor.word()
        );
        self.keep(drawn);
    }

    /// Draws a text at a place.
    fn write(&mut self, across: u64, down: u64, anchor: Anchor, text: &str) {
        let drawn = write!(
            self.text,
            "<text x=\"{across}\" y=\"{down}\" text-anchor=\"{}\">",
            anchor.word()
        );
        self.keep(drawn);
        self.escaped(text);
        let drawn = writeln!(self.text, "</text>");
        self.keep(drawn);
    }

    /// Appends a text in which nothing is parsed as a tag.
    fn escaped(&mut self, text: &str) {
        for letter in text.chars() {
            let drawn = match letter {
                '<' => self.text.push_str("&lt;"),
                '>' => self.text.push_str("&gt;"),
                '&' => self.text.push_str("&amp;"),
                _ => self.text.push(letter),
            };
            self.keep(drawn);
        }
    }
}
