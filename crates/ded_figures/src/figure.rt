//! Tuples over two of their columns.

use crate::axes::Axes;
use ded_model::name::Name;
use ded_model::row::Row;
use std::marker::Model;

/// A tuple over two of its columns. Contracts see the list of the rows.
#[derive(Drop)]
pub struct Figure {
    pub axes: Axes,
    /// Rows over the two columns, which hold at a point exactly where the tuple does with some values of all other
    /// columns.
    pub rows: Vec<Row>,
    /// The first text that the tuple gives to a column, empty where it gives none.
    pub label: Name,
    /// The tuple as it is printed.
    pub title: Name,
}

impl Model for Figure {
    ghost use Rattle.ded_polygon.specs.Closures.{MentionOnly};
    ghost use Rattle.ded_figures.specs.Figure.{Figure};

    ghost Value = { Figure };

    ghost view = { λ f. record { axes = f.axes; rows = f.rows.items; label = f.label; title = f.title } };

    ghost invariant = { λ f. MentionOnly f.axes.x f.axes.y f.rows.items };
}
