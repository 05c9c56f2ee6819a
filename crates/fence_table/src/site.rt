/// An instruction of the program.
#[derive(Drop)]
pub struct Site {
    /// Its address.
    pub pc: u64,
    /// Where it stands in a function, if one is known that has it.
    pub name: Option<SiteName>,
}

/// Where an instruction stands in a function.
#[derive(Drop)]
pub struct SiteName {
    /// The function's name: characters of ASCII that can be printed, none of them a blank.
    pub function: Vec<u8>,
    /// How far the instruction is from the function's first byte.
    pub offset: u64,
}
