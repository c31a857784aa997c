use crate::program::{FIRST, TWICE};
use crate::stop::Stop;
use cil_base::{Constant, IntKind};
use cil_tree::{ImageItem, Step};
use std::alloc::Global;

/// A scalar of an object: the path to it, and its value.
pub(crate) struct Scalar {
    path: &'static [Step],
    value: Constant,
}

pub(crate) const LEAST: &[Scalar] = &[Scalar {
    path: &[],
    value: Constant::Int(IntKind::Char, -128),
}];

/// Two elements of `int [ 2 ] [ 3 ]`.
pub(crate) const ELEMENTS: &[Scalar] = &[
    Scalar {
        path: &[Step::Index(0), Step::Index(1)],
        value: Constant::Int(IntKind::Int, 9),
    },
    Scalar {
        path: &[Step::Index(1), Step::Index(2)],
        value: Constant::Int(IntKind::Int, -7),
    },
];

/// A struct with an enum, an element of an array and a pointer to the struct itself.
pub(crate) const ITSELF: &[Scalar] = &[
    Scalar {
        path: &[Step::Field(0)],
        value: Constant::Int(IntKind::Int, -5),
    },
    Scalar {
        path: &[Step::Field(1), Step::Index(2)],
        value: Constant::Int(IntKind::UChar, 255),
    },
    Scalar {
        path: &[Step::Field(2)],
        value: Constant::Address(FIRST, 0),
    },
];

/// A pointer to a function.
pub(crate) const TO_TWICE: &[Scalar] = &[Scalar {
    path: &[],
    value: Constant::Function(TWICE),
}];

/// A pointer to no object.
pub(crate) const SIXTEEN: &[Scalar] = &[Scalar {
    path: &[],
    value: Constant::Int(IntKind::ULong, 16),
}];

/// A union.
pub(crate) const NUMBER: &[Scalar] = &[Scalar {
    path: &[Step::Field(0)],
    value: Constant::Int(IntKind::Long, -9223372036854775808),
}];

/// A value of each kind, the least where the kind has signs.
pub(crate) const NUMBERS: &[Scalar] = &[
    Scalar {
        path: &[Step::Field(0)],
        value: Constant::Int(IntKind::Bool, 1),
    },
    Scalar {
        path: &[Step::Field(1)],
        value: Constant::Int(IntKind::Char, 65),
    },
    Scalar {
        path: &[Step::Field(2)],
        value: Constant::Int(IntKind::SChar, -128),
    },
    Scalar {
        path: &[Step::Field(3)],
        value: Constant::Int(IntKind::UChar, 255),
    },
    Scalar {
        path: &[Step::Field(4)],
        value: Constant::Int(IntKind::Short, -32768),
    },
    Scalar {
        path: &[Step::Field(5)],
        value: Constant::Int(IntKind::UShort, 65535),
    },
    Scalar {
        path: &[Step::Field(6)],
        value: Constant::Int(IntKind::Int, -1),
    },
    Scalar {
        path: &[Step::Field(7)],
        value: Constant::Int(IntKind::UInt, 4294967295),
    },
    Scalar {
        path: &[Step::Field(8)],
        value: Constant::Int(IntKind::Long, -9223372036854775808),
    },
    Scalar {
        path: &[Step::Field(9)],
        value: Constant::Int(IntKind::ULong, 18446744073709551615),
    },
    Scalar {
        path: &[Step::Field(10)],
        value: Constant::Int(IntKind::LLong, -9223372036854775808),
    },
    Scalar {
        path: &[Step::Field(11)],
        value: Constant::Int(IntKind::ULLong, 1),
    },
];

/// Adds a value at a path.
fn add_scalar(
    items: &mut Vec<ImageItem>,
    alloc: Global,
    path: &[Step],
    value: Constant,
) -> Result<(), Stop> {
    let path = path.to_vec(alloc)?;
    items.push(ImageItem { path, value })?;
    Ok(())
}

/// An image of these scalars.
pub(crate) fn image(alloc: Global, scalars: &[Scalar]) -> Result<Vec<ImageItem>, Stop> {
    let mut items = Vec::new(alloc);
    for scalar in scalars {
        add_scalar(&mut items, alloc, scalar.path, scalar.value)?;
    }
    Ok(items)
}

/// An image of one scalar object.
pub(crate) fn alone(alloc: Global, value: Constant) -> Result<Vec<ImageItem>, Stop> {
    let mut items = Vec::new(alloc);
    add_scalar(&mut items, alloc, &[], value)?;
    Ok(items)
}
