//! Reasons that failures tell.

use thiserror::Error;

/// How a table isn't that of the slice which follows on another one.
#[derive(Clone, Copy, Debug, PartialEq, Eq, Error)]
pub enum Apart {
    /// It is of another program, or only one of the two tells of which it is.
    #[error("it is of another program, or only one of the two tells of which it is")]
    Program,
    /// Its executions are made otherwise.
    #[error("one hunt is weak, and the other isn't")]
    Kind,
    /// Its hunt has another seed.
    #[error("it has another seed")]
    Seed,
    /// Its hunt looks at other bytes.
    #[error("it has other bytes that are seen")]
    Bytes,
    /// Its hunt has another number of harts.
    #[error("it has another number of harts")]
    Harts,
    /// There are plans between them.
    #[error("there are plans between the two")]
    Gap,
    /// A plan is in both.
    #[error("the two have plans in common")]
    Overlap,
}

/// Why the endings of two tables can't be compared.
#[derive(Clone, Copy, Debug, PartialEq, Eq, Error)]
pub enum Unlike {
    /// They are of another number of harts.
    #[error("the two tables are of another number of harts")]
    Harts,
    /// They have other bytes that are looked at.
    #[error("the two tables have other bytes that are seen")]
    Bytes,
}

/// Why a word names no fence.
#[derive(Clone, Copy, Debug, PartialEq, Eq, Error)]
pub enum Misplaced {
    /// It is neither an address nor a place in a function.
    #[error("name an instruction as fences prints it, by its PC of 16 digits or as FUNCTION+0xOFFSET, or by an address, as 0x1068")]
    Unreadable,
    /// It names a function, and the image has no symbol table.
    #[error("the image has no symbol table, which would say where the function is")]
    NoSymbols,
    /// The symbol table has no function of this name.
    #[error("the image's symbol table has no such function")]
    NoFunction,
    /// The symbol table has several functions of this name, at different addresses.
    #[error("the image's symbol table has several functions of this name: name the instruction by its address")]
    Several,
    /// The function ends before this place.
    #[error("the function ends before it")]
    Beyond,
    /// There is no instruction at this address.
    #[error("the image has no instruction there")]
    NotCode,
    /// What is behind `=` is no kind of fence.
    #[error("name the kind of fence behind = as assemblers write it, as w,r or rw,w")]
    NoKind,
}
