//! The parts of each colour.
ghost use Rattle.std.specs.Prelude.{◌≡◌, [], replicate, IfOk, OnOk};
ghost use Rattle.ded_picture.specs.Layers.{layers_of, put_in};

use crate::parts::Shown;
use ded_layers::{Part, lines};
use ded_model::memory::NoMemory;
use ded_polygon::PlaneWindow;
use ded_strokes::Stretch;
use std::alloc::Global;
use std::marker::Model;

/// The parts of one colour. Contracts see the list.
#[derive(Drop)]
pub(crate) struct Layer {
    pub parts: Vec<Part>,
}

impl Model for Layer {
    ghost use Rattle.std.specs.Prelude.{List};
    ghost use Rattle.ded_layers.specs.declared.part.Part.{Part};

    ghost Value = { List Part };

    ghost view = { λ l. l.parts.items };
}

impl Layer {
    ghost use Rattle.std.specs.Prelude.{◌≡◌, ◌++◌, ◌∷◌, [], IfOk, OnOk};
    ghost use Rattle.ded_layers.specs.Layers.{AreLines, ArePartsWithin, pieces_of};

    /// The lines of the sides of the parts, as they are drawn among all of them.
    ///
    /// # Errors
    /// Out of memory.
    pub(crate) fn lines(&self, alloc: Global, window: PlaneWindow) -> Result<Vec<Stretch>, NoMemory>
        requires { ArePartsWithin window self.now }
        ensures { IfOk result (λ ls. AreLines (pieces_of self.now) self.now ls.items) }
    {
        lines(alloc, self.parts.as_slice(), window)
    }

    /// Adds a part at the end.
    fn add(&mut self, part: Part) -> Result<(), NoMemory>
        ensures { OnOk result (self.new ≡ self.old ++ part ∷ []) }
    {
        self.parts.push(part)?;
        Ok(())
    }
}

/// The parts of each of so many colours, in order.
///
/// # Errors
/// Out of memory.
pub(crate) fn layers_of(
    alloc: Global,
    colours: usize,
    list: Vec<Shown>,
) -> Result<Vec<Layer>, NoMemory>
    ensures { IfOk result (λ layers. layers.items ≡ layers_of colours list.items) }
{
    let mut layers = empty_layers(alloc, colours)?;
    for shown in list {
        put_in(&mut layers, shown.colour as usize, shown.part)?;
    }
    Ok(layers)
}

/// So many layers without parts.
fn empty_layers(alloc: Global, colours: usize) -> Result<Vec<Layer>, NoMemory>
    ensures { IfOk result (λ layers. layers.items ≡ replicate colours []) }
{
    let mut layers = Vec::with_capacity(alloc, colours)?;
    for _ in 0..colours {
        layers.push(Layer {
            parts: Vec::new(alloc),
        })?;
    }
    Ok(layers)
}

/// Puts the part at the end of the layer of a colour, if there is one.
///
/// # Errors
/// Out of memory.
fn put_in(layers: &mut Vec<Layer>, colour: usize, part: Part) -> Result<(), NoMemory>
    ensures { OnOk result (layers.new.items ≡ put_in layers.old.items colour part) }
{
    if colour < layers.len() {
        layers[colour].add(part)?;
    }
    Ok(())
}
