//! The kinds of atoms, and a byte for each.
ghost use Rattle.std.specs.Prelude.{◌≡◌};
ghost use Rattle.ded_packed.specs.Kinds.{kind_of};

use ded_model::row::RowOp;

/// What an atom is, without its parts.
#[derive(Clone, Copy, PartialEq, Eq, Debug)]
pub(crate) enum Kind {
    Row(RowOp),
    EqText,
    NeText,
    EqSlot,
    NeSlot,
}

impl Kind {
    /// The kind that a byte stands for.
    pub(crate) fn of(byte: u8) -> Kind
        ensures { result ≡ kind_of byte }
    {
        match byte {
            0 => Kind::Row(RowOp::Zero),
            1 => Kind::Row(RowOp::AtMost),
            2 => Kind::Row(RowOp::Below),
            3 => Kind::EqText,
            4 => Kind::NeText,
            5 => Kind::EqSlot,
            _ => Kind::NeSlot,
        }
    }

    /// The byte that stands for the kind.
    pub(crate) fn byte(self) -> u8
        ensures { kind_of result ≡ self }
    {
        match self {
            Kind::Row(RowOp::Zero) => 0,
            Kind::Row(RowOp::AtMost) => 1,
            Kind::Row(RowOp::Below) => 2,
            Kind::EqText => 3,
            Kind::NeText => 4,
            Kind::EqSlot => 5,
            Kind::NeSlot => 6,
        }
    }
}
