//! The shapes of a picture. Lengths and places are in pixels, to the right and downwards.
ghost use Rattle.std.specs.Prelude.{◌≡◌, IfOk};
ghost use Rattle.picture_kit.specs.Shapes.{spot, noted, words, plain_line};

use crate::Ink;
use cargo_core::{Memory, Series, Text};
use std::alloc::Global;

/// A point.
#[derive(Clone, Copy, Debug, PartialEq, Eq)]
pub struct Spot {
    pub x: u64,
    pub y: u64,
}

/// A rectangle, by its upper left corner and its size.
#[derive(Clone, Copy, Debug, PartialEq, Eq)]
pub struct Area {
    pub x: u64,
    pub y: u64,
    pub width: u64,
    pub height: u64,
}

/// A straight line between two points. Where the ink has an arrow's head, it is at `to`.
#[derive(Clone, Copy, Debug, PartialEq, Eq)]
pub struct Segment {
    pub from: Spot,
    pub to: Spot,
}

/// What a shape is: a rectangle, a line, a dot round a point, or words that begin at a point of
/// their base line.
#[derive(Debug, Drop)]
pub enum Form {
    Block(Area),
    Line(Segment),
    Dot(Spot),
    Words(Spot, Text),
}

/// A shape with its ink, and the note that is shown where a pointer rests on it and told to a
/// reader of screens; none where it is empty.
#[derive(Debug, Drop)]
pub struct Shape {
    pub ink: Ink,
    pub form: Form,
    pub note: Text,
}

/// A picture: its size, its title, what it shows in words, and its shapes, of which later ones lie
/// over earlier ones.
#[derive(Debug, Drop)]
pub struct Picture {
    pub width: u64,
    pub height: u64,
    pub title: Text,
    pub about: Text,
    pub shapes: Series<Shape>,
}

impl Spot {
    /// The point at these places.
    pub fn new(x: u64, y: u64) -> Spot
        ensures { result ≡ spot x y }
    {
        Spot { x, y }
    }
}

impl Shape {
    /// A shape with a note.
    pub fn noted(alloc: Global, ink: Ink, form: Form, note: &str) -> Result<Shape, Memory>
        ensures { IfOk result (λ shape. shape ≡ noted ink form note.now) }
    {
        let note = Text::new(alloc, note)?;
        Ok(Shape { ink, form, note })
    }

    /// Words without a note.
    pub fn words(alloc: Global, ink: Ink, x: u64, y: u64, text: &str) -> Result<Shape, Memory>
        ensures { IfOk result (λ shape. shape ≡ words ink x y text.now) }
    {
        let text = Text::new(alloc, text)?;
        Shape::noted(alloc, ink, Form::Words(Spot { x, y }, text), "")
    }

    /// A line without a note.
    pub fn line(alloc: Global, ink: Ink, from: Spot, to: Spot) -> Result<Shape, Memory>
        ensures { IfOk result (λ shape. shape ≡ plain_line ink from to) }
    {
        Shape::noted(alloc, ink, Form::Line(Segment { from, to }), "")
    }
}
