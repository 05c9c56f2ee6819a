/// How many steps the harts of an execution may do together: what is kept of them takes some 2 GB.
pub const MOST_STEPS: u64 = 1 << 24;

/// A hart's turn: at its next access or call, or at one of a number.
#[derive(Clone, Copy)]
pub struct Turn {
    /// The hart.
    pub hart: u8,
    /// In an order which one of the hart's memory operations stands here, counted from 0; in calls the number of the round from
    /// here on.
    pub number: Option<u64>,
}

/// What a hart does.
pub struct HartDeeds {
    /// How many instructions it does.
    pub steps: u64,
    /// The code with which it stops after them, and 0 where it runs on.
    pub code: u8,
    /// The value of the exit call.
    pub value: Option<u64>,
    /// The numbers that its loads, LRs and AMOs read, and for each SC 1 where it succeeds and 0 where it fails, in program order.
    pub reads: Vec<u64>,
}

// By hand, so that a proof has one step for it wherever one is dropped, in this crate and above.
impl Drop for HartDeeds {
    fn drop(self) {
        let HartDeeds {
            steps: _,
            code: _,
            value: _,
            reads,
        } = self;
        drop(reads);
    }
}

/// An execution of a guest program: what its harts do, what they read, and an order of their memory operations.
///
/// Each value has one text, and nothing is said of whether there is such an execution.
pub struct ExecutionFile {
    /// Whether the image is a flat file; else it is an ELF file.
    pub flat: bool,
    /// How many pages of 4,096 bytes guest memory has.
    pub pages: u32,
    /// The file of the guest program.
    pub image: Vec<u8>,
    /// What the guest reads.
    pub input: Vec<u8>,
    /// The harts, in hart order.
    pub harts: Vec<HartDeeds>,
    /// The harts in the order of their calls, as far as it is given. The harts do the others after these, one hart after another.
    pub calls: Vec<Turn>,
    /// The harts in an order of their memory operations.
    pub order: Vec<Turn>,
}

// By hand, so that a proof has one step for it wherever one is dropped, in this crate and above.
impl Drop for ExecutionFile {
    fn drop(self) {
        let ExecutionFile {
            flat: _,
            pages: _,
            image,
            input,
            harts,
            calls,
            order,
        } = self;
        drop(image);
        drop(input);
        drop(harts);
        drop(calls);
        drop(order);
    }
}
