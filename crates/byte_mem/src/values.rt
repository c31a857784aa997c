ghost use Rattle.std.specs.Prelude.{◌≡◌};
ghost use Rattle.byte_mem.specs.Scalar.{scalar_size, kind_of};

use crate::pointers::Pointer;
use cil_base::{Abi, IntKind};
use std::marker::Model;

/// What a byte of an object holds (C11 6.2.6.1; own).
#[derive(Clone, Copy, Debug, PartialEq, Eq)]
pub enum Byte {
    /// A number from 0 to 255.
    Known(u8),
    /// Nothing that a program may rely on (C11 3.19.2, an indeterminate value).
    Unknown,
    /// The byte of that number, from 0, of a pointer.
    Part(Pointer, u8),
}

/// The value of a scalar type (C11 6.2.5p21).
#[derive(Clone, Copy, Debug, PartialEq, Eq)]
pub enum Value {
    /// A number; of a pointer type it is the number that was converted to it (C11 6.3.2.3p5), 0 for null.
    Int(i128),
    /// A pointer to an object or a function.
    Ptr(Pointer),
    /// An indeterminate value (C11 3.19.2).
    Unknown,
    /// The byte of that number of a pointer, as a value of a type of one byte.
    Part(Pointer, u8),
}

/// The kind of a scalar type (C11 6.2.5p21).
#[derive(Clone, Copy, Debug)]
pub enum Scalar {
    /// An integer type. An enumerated type is of the kind Int.
    Int(IntKind),
    /// A pointer type.
    Ptr,
}

impl Scalar {
    /// The size of a scalar in bytes, which is its alignment too (own).
    pub fn size(self, abi: Abi) -> u32
        ensures { result ≡ scalar_size abi self }
    {
        match self {
            Scalar::Int(kind) => kind.size(),
            Scalar::Ptr => abi.pointer_size(),
        }
    }

    /// The kind whose values the numbers of the scalar are: those of a pointer type are of the unsigned
    /// integer type of its size (own).
    pub fn kind(self, abi: Abi) -> IntKind
        ensures { result ≡ kind_of abi self }
    {
        match self {
            Scalar::Int(kind) => kind,
            Scalar::Ptr => abi.ulong(),
        }
    }
}

/// A list of bytes of memory, as a struct or a union is copied.
#[derive(Drop)]
pub struct Cells {
    kept: Vec<Byte>,
}

impl Model for Cells {
    ghost use Rattle.std.specs.Prelude.{List};
    ghost use Rattle.byte_mem.specs.declared.values.Byte.{Byte};

    ghost Value = { List Byte };

    ghost view = { λ c. c.kept.items };
}

impl Cells {
    /// The bytes of a vector.
    pub fn new(bytes: Vec<Byte>) -> Self
        ensures { result ≡ bytes.items }
    {
        Cells { kept: bytes }
    }

    /// The bytes, as a slice.
    pub fn as_slice(&self) -> &[Byte]
        ensures { result.now ≡ self.now }
    {
        &self.kept
    }

    /// The vector that holds the bytes.
    pub fn into_vec(self) -> Vec<Byte>
        ensures { result.items ≡ self }
    {
        self.kept
    }
}
