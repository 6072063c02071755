//! Pictures as data.

use crate::coordinate::Coordinate;
use ded_model::name::Name;
use std::marker::Model;

/// A point of a picture, in units from its upper left corner: `x` to the right, `y` downwards.
#[derive(Clone, Copy, PartialEq, Eq, Debug)]
pub struct Point {
    pub x: Coordinate,
    pub y: Coordinate,
}

/// The corners of a polygon, in order around it. Contracts see the list.
#[derive(Drop)]
pub struct Corners {
    pub list: Vec<Point>,
}

impl Model for Corners {
    ghost use Rattle.std.specs.Prelude.{List};
    ghost use Rattle.ded_svg.specs.declared.picture.Point.{Point};

    ghost Value = { List Point };

    ghost view = { λ c. c.list.items };
}

/// A shape.
#[derive(Drop)]
pub enum Shape {
    Polygon(Corners),
    Segment(Point, Point),
    /// A point, drawn as a disc around it.
    Disc(Point),
}

/// A shape in the colour of this number, with its title.
#[derive(Drop)]
pub struct ColouredShape {
    pub shape: Shape,
    pub colour: u32,
    pub title: Name,
}

/// How a line is drawn.
#[derive(Clone, Copy, PartialEq, Eq, Debug)]
pub enum Line {
    Solid,
    Dashed,
}

/// A line over the shapes in the colour of this number.
#[derive(Clone, Copy, PartialEq, Eq, Debug)]
pub struct ColouredLine {
    pub start: Point,
    pub end: Point,
    pub line: Line,
    pub colour: u32,
}

/// A place on a border of the picture, and what it is labelled with.
#[derive(Drop)]
pub struct Tick {
    pub place: Coordinate,
    pub label: Name,
}

/// What the colour of this number stands for.
#[derive(Drop)]
pub struct LegendEntry {
    pub colour: u32,
    pub words: Name,
}

/// A picture. Areas are filled only in colours that stand in the legend.
#[derive(Drop)]
pub struct Picture {
    /// In units.
    pub width: u32,
    /// In units.
    pub height: u32,
    pub title: Name,
    /// The lines of its description, for readers who don't see it.
    pub description: Vec<Name>,
    /// The shapes, later ones over earlier ones.
    pub marks: Vec<ColouredShape>,
    /// The lines over the shapes.
    pub strokes: Vec<ColouredLine>,
    /// The ticks of the lower border, placed to the right.
    pub lower_ticks: Vec<Tick>,
    /// The ticks of the left border, placed downwards.
    pub left_ticks: Vec<Tick>,
    /// The entries below the picture, from top to bottom.
    pub legend: Vec<LegendEntry>,
}
