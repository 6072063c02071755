//! A database: a catalogue, and the answers of kept views as lists that follow the relations.
//!
//! A view that is kept has a mark, and mostly its answer is held as a list of tuples. The type [`Database`] promises of
//! each list that it holds exactly where the view's formula does over the present catalogue, whatever changes were made
//! since. A change leaves marks and lists of views that it doesn't concern as they are; questions read lists that are
//! held in place of evaluating their views.
//!
//! A [`Mark`] has the view's name, the plan of its formula, and for each name in the formula which names that one
//! reaches. A view's formula doesn't change, and no name that it uses can be dropped; so a mark stays right for as long
//! as the view is there. When a relation changes, the new lists of the views that reach it are made first, over the
//! relations as they will be, in the order of the marks; then the catalogue is changed. Where a tuple only adds to a
//! view whose list is held, that list is extended, at a cost that doesn't grow with the relation. Where such a tuple
//! goes again, what it gave alone is taken off. A row of the list may have numbers that only the deleted tuple had, and
//! then it is no line of the view any more; so the lines that the view's goal may lose are told from the goal and the
//! deleted tuple, and a list that has one of them is made anew. So is one of a view that quantifies over a number of
//! the tuple, or doesn't name it by a variable of its own, and any other list. Where there is no memory, the catalogue
//! stays as it was, and the lists of these views may be dropped.
//!
//! It stands on `ded_row` for the lines of rows, on `ded_catalog` for catalogues and snapshots of them, on `ded_keep`
//! for lists that follow one tuple, on `ded_query` for the answers of views, on `ded_algebra` for the lists that are
//! held, on `ded_atoms` for reduced tuples, on `ded_plan` for plans and the names of goals, and on `ded_views` for what
//! a name reaches and what a change leaves alone. What evaluates plans is a type that the caller names.
#![tactic(auto)]

mod arguments;
mod change;
mod database;
mod extending;
mod gone;
mod keeping;
pub mod laws;
mod lines;
mod lost;
mod mark;
mod reaching;
mod renewing;
mod shortening;
mod taking;
mod unshared;
mod upkeep;

pub use database::Database;
