ghost use Rattle.std.specs.Prelude.{◌≡◌};
ghost use Rattle.program_files.specs.Naming.{naming_number};

use std::fmt::{self, Display, Formatter, Write};

/// Why the bytes that a line names can't be looked at.
#[derive(Drop)]
pub enum NamingFault {
    /// A range is empty, or isn't all in guest memory.
    Outside,
    /// The image's symbol table has no object of this name; the second text names those that it has of a like name.
    NoObject(String, String),
    /// The image's symbol table has several objects of this name, at different addresses.
    Several(String),
    /// The image has no symbol table, and so no object of this name.
    NoSymbols(String),
}

impl NamingFault {
    /// The number of the refusal.
    pub fn number(&self) -> u32
        ensures { result ≡ naming_number self.now }
    {
        match self {
            NamingFault::Outside => 74,
            NamingFault::NoObject(_, _) | NamingFault::Several(_) | NamingFault::NoSymbols(_) => 75,
        }
    }
}

impl Display for NamingFault {
    fn fmt<W: Write>(&self, f: &mut Formatter<W>) -> Result<(), fmt::Error> {
        match self {
            NamingFault::Outside => {
                f.write_str(
                    "a range of bytes that is to be seen is empty, or isn't all in guest memory",
                )
            }
            NamingFault::NoObject(name, others) => {
                write!(f, "the image's symbol table has no object {name}")?;
                if !others.is_empty() {
                    write!(f, ", but {others}")?;
                }
                Ok(())
            }
            NamingFault::Several(name) => write!(
                f,
                "the image's symbol table has several objects {name}: give the address and length of one by --see"
            ),
            NamingFault::NoSymbols(name) => write!(
                f,
                "the image has no symbol table, which would say where {name} is"
            ),
        }
    }
}
