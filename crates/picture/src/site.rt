use elf_loader::SymbolOffset;

/// What is known of an event beside the trace.
#[derive(Clone, Copy)]
pub struct Site<'a> {
    /// The pc of its instruction.
    pub pc: Option<u64>,
    /// The object of the program that it touched, and where.
    pub object: Option<SymbolOffset<'a>>,
}
