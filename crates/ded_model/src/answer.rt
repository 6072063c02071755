//! Answers to queries.
ghost use Rattle.std.specs.Prelude.{◌≡◌, IfOk};

use crate::memory::NoMemory;
use crate::name::Heading;
use crate::tuple::Tuples;

/// A heading, and the generalized tuples that hold exactly where the query does.
#[derive(Drop)]
pub struct Answer {
    pub heading: Heading,
    pub tuples: Tuples,
}

impl Answer {
    /// An equal answer.
    ///
    /// # Errors
    /// Out of memory.
    pub fn copy(&self) -> Result<Answer, NoMemory>
        ensures { IfOk result (λ a. a ≡ self.now) }
    {
        Ok(Answer {
            heading: self.heading.copy()?,
            tuples: self.tuples.copy()?,
        })
    }
}
