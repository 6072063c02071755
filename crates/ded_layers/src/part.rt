//! Parts of a layer.
use ded_polygon::Corner;
use ded_strokes::PlanePiece;

/// A piece, and the corners of its shape within a window, counterclockwise.
#[derive(Drop)]
pub struct Part {
    pub piece: PlanePiece,
    pub corners: Vec<Corner>,
}
