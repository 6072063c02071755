//! A colour for each first text.
ghost use Rattle.std.specs.Prelude.{◌≡◌, IfOk, IsTrue, OnOk, slice_get, Some};
ghost use Rattle.ded_picture.specs.Colours.{entries_of, labels_in, with_label, words_of};

use ded_atoms::following;
use ded_figures::Sight;
use ded_model::memory::NoMemory;
use ded_model::name::Name;
use ded_svg::LegendEntry;
use indexmap::IndexSet;
use std::alloc::{AllocError, Global};

/// What stands in the legend for tuples without a text.
const NO_TEXT: &[u8] = b"(no text)";

/// The first texts of the figures, each once, in the order in which they come. The place of a text is the number of its
/// colour.
///
/// # Errors
/// Out of memory.
pub fn labels_of(alloc: Global, sights: &[Sight]) -> Result<IndexSet<Name>, NoMemory>
    ensures { IfOk result (λ labels. labels.keys ≡ labels_in sights.now) }
{
    let mut labels = IndexSet::new(alloc);
    for sight in sights {
        add_label(&mut labels, sight)?;
    }
    Ok(labels)
}

/// Adds the first text of a figure, if it is new.
fn add_label(labels: &mut IndexSet<Name>, sight: &Sight) -> Result<(), NoMemory>
    ensures { OnOk result (labels.new.keys ≡ with_label labels.old.keys sight.now) }
{
    match sight {
        Sight::Seen(figure) => match labels.insert(figure.label.copy()?) {
            Ok(_) => Ok(()),
            Err(_) => Err(AllocError),
        },
        Sight::Nowhere | Sight::Wide => Ok(()),
    }
}

/// The colour of a text: its place.
///
/// # Errors
/// Out of memory: it has no place.
pub(crate) fn colour_of(labels: &IndexSet<Name>, label: &Name) -> Result<u32, NoMemory>
    ensures { IfOk result (λ colour. slice_get labels.now.keys colour ≡ Some label.now) }
{
    let Some(place) = labels.get_index_of(label) else {
        return Err(AllocError);
    };
    let Ok(colour) = u32::try_from(place) else {
        return Err(AllocError);
    };
    if !stands_at(labels, place, label) {
        return Err(AllocError);
    }
    Ok(colour)
}

/// Whether the text stands at the place.
fn stands_at(labels: &IndexSet<Name>, place: usize, label: &Name) -> bool
    ensures { IsTrue result → slice_get labels.now.keys place ≡ Some label.now }
{
    match labels.get_index(place) {
        Some(found) => found.is_same(label),
        None => false,
    }
}

/// The entries of the legend, one for each colour.
///
/// # Errors
/// Out of memory.
pub fn legend_of(alloc: Global, labels: &IndexSet<Name>) -> Result<Vec<LegendEntry>, NoMemory>
    ensures { IfOk result (λ legend. legend.items ≡ entries_of 0 labels.now.keys) }
{
    let mut legend = Vec::new(alloc);
    let mut colour = 0;
    for place in 0..labels.len() {
        let Some(label) = labels.get_index(place) else {
            return Err(AllocError);
        };
        legend.push(LegendEntry {
            colour,
            words: words_of(alloc, label)?,
        })?;
        colour = following(colour)?;
    }
    Ok(legend)
}

/// What stands in the legend for a text.
fn words_of(alloc: Global, label: &Name) -> Result<Name, NoMemory>
    ensures { IfOk result (λ words. words ≡ words_of label.now) }
{
    if label.bytes.is_empty() {
        return Ok(Name {
            bytes: NO_TEXT.to_vec(alloc)?,
        });
    }
    label.copy()
}
