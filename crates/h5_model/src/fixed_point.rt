//! Fixed-point types.

ghost use Rattle.std.specs.Prelude.{◌≡◌};
ghost use Rattle.h5_model.specs.Format.Fixed.{fixed_from, IsFixed};

use std::marker::Model;

/// A fixed-point type: its size in bytes, whether it is signed, and whether the high byte stands first.
#[derive(Clone, Copy, Debug, PartialEq, Eq)]
pub struct Fixed {
    size: u8,
    signed: bool,
    big: bool,
}

impl Model for Fixed {
    ghost use Rattle.h5_model.specs.Format.Fixed as fixed;

    ghost Value = { fixed.Fixed };

    ghost view = { λ a. record { size = a.size; signed = a.signed; big = a.big } };

    ghost invariant = { λ a. fixed.IsFixed (record { size = a.size; signed = a.signed; big = a.big }) };

    ghost inverse = { λ t. record { size = t.size; signed = t.signed; big = t.big } };
}

impl Fixed {
    /// Signed, of one byte.
    pub const I8: Fixed = Fixed {
        size: 1,
        signed: true,
        big: false,
    };

    /// Unsigned, of one byte.
    pub const U8: Fixed = Fixed {
        size: 1,
        signed: false,
        big: false,
    };

    /// Signed, of two bytes, the low byte first.
    pub const I16_LE: Fixed = Fixed {
        size: 2,
        signed: true,
        big: false,
    };

    /// Signed, of two bytes, the high byte first.
    pub const I16_BE: Fixed = Fixed {
        size: 2,
        signed: true,
        big: true,
    };

    /// Unsigned, of two bytes, the low byte first.
    pub const U16_LE: Fixed = Fixed {
        size: 2,
        signed: false,
        big: false,
    };

    /// Unsigned, of two bytes, the high byte first.
    pub const U16_BE: Fixed = Fixed {
        size: 2,
        signed: false,
        big: true,
    };

    /// Signed, of four bytes, the low byte first.
    pub const I32_LE: Fixed = Fixed {
        size: 4,
        signed: true,
        big: false,
    };

    /// Signed, of four bytes, the high byte first.
    pub const I32_BE: Fixed = Fixed {
        size: 4,
        signed: true,
        big: true,
    };

    /// Unsigned, of four bytes, the low byte first.
    pub const U32_LE: Fixed = Fixed {
        size: 4,
        signed: false,
        big: false,
    };

    /// Unsigned, of four bytes, the high byte first.
    pub const U32_BE: Fixed = Fixed {
        size: 4,
        signed: false,
        big: true,
    };

    /// Signed, of eight bytes, the low byte first.
    pub const I64_LE: Fixed = Fixed {
        size: 8,
        signed: true,
        big: false,
    };

    /// Signed, of eight bytes, the high byte first.
    pub const I64_BE: Fixed = Fixed {
        size: 8,
        signed: true,
        big: true,
    };

    /// Unsigned, of eight bytes, the low byte first.
    pub const U64_LE: Fixed = Fixed {
        size: 8,
        signed: false,
        big: false,
    };

    /// Unsigned, of eight bytes, the high byte first.
    pub const U64_BE: Fixed = Fixed {
        size: 8,
        signed: false,
        big: true,
    };

    /// The type, or `None` where there is none of this size. One byte has no order.
    pub fn new(size: u8, signed: bool, big: bool) -> Option<Fixed>
        ensures { result ≡ fixed_from size signed big }
    {
        match (size, signed, big) {
            (1, true, _) => Some(Fixed::I8),
            (1, false, _) => Some(Fixed::U8),
            (2, true, false) => Some(Fixed::I16_LE),
            (2, true, true) => Some(Fixed::I16_BE),
            (2, false, false) => Some(Fixed::U16_LE),
            (2, false, true) => Some(Fixed::U16_BE),
            (4, true, false) => Some(Fixed::I32_LE),
            (4, true, true) => Some(Fixed::I32_BE),
            (4, false, false) => Some(Fixed::U32_LE),
            (4, false, true) => Some(Fixed::U32_BE),
            (8, true, false) => Some(Fixed::I64_LE),
            (8, true, true) => Some(Fixed::I64_BE),
            (8, false, false) => Some(Fixed::U64_LE),
            (8, false, true) => Some(Fixed::U64_BE),
            _ => None,
        }
    }

    /// The size of a value in bytes.
    pub fn size(&self) -> usize
        ensures size { result ≡ self.now.size }
        ensures one_of { IsFixed self.now }
    {
        usize::from(self.size)
    }

    /// Whether a value is signed.
    pub fn is_signed(&self) -> bool
        ensures { result ≡ self.now.signed }
    {
        self.signed
    }

    /// Whether the high byte of a value stands first.
    pub fn is_big(&self) -> bool
        ensures { result ≡ self.now.big }
    {
        self.big
    }
}
