//! The registers of instructions.
ghost use Rattle.std.specs.Prelude.{◌≡◌};
ghost use Rattle.memory_order.specs.Registers.{branches, computes, exchanges, loads, none, registers_of, sets, stores, turns};

use rv64_decode::{Instr, Reg};

/// The registers of an instruction, as syntactic dependencies see them (manual, section 14.3). Register x0 stands for none.
#[derive(Clone, Copy)]
pub struct Registers {
    /// The address source register.
    pub address: Reg,
    /// The data source register.
    pub value: Reg,
    /// A source register that is neither.
    pub first: Reg,
    /// Another one.
    pub second: Reg,
    /// The destination register.
    pub destination: Reg,
    /// Whether it carries a dependency from each source register to the destination.
    pub carries: bool,
    /// Whether it is a branch or an indirect jump.
    pub steers: bool,
}

/// The registers of an instruction.
pub fn used_registers(i: &Instr) -> Registers
    ensures { result ≡ registers_of i.now }
{
    match *i {
        Instr::Lui { rd, .. } | Instr::Auipc { rd, .. } | Instr::Jal { rd, .. } => sets(rd),
        Instr::Jalr { rd, rs1, .. } => turns(rd, rs1),
        Instr::Beq { rs1, rs2, .. }
        | Instr::Bne { rs1, rs2, .. }
        | Instr::Blt { rs1, rs2, .. }
        | Instr::Bge { rs1, rs2, .. }
        | Instr::Bltu { rs1, rs2, .. }
        | Instr::Bgeu { rs1, rs2, .. } => branches(rs1, rs2),
        Instr::Lb { rd, rs1, .. }
        | Instr::Lh { rd, rs1, .. }
        | Instr::Lw { rd, rs1, .. }
        | Instr::Lbu { rd, rs1, .. }
        | Instr::Lhu { rd, rs1, .. } => loads(rd, rs1),
        Instr::Sb { rs1, rs2, .. } | Instr::Sh { rs1, rs2, .. } | Instr::Sw { rs1, rs2, .. } =>
            stores(rs1, rs2),
        Instr::Addi { rd, rs1, .. }
        | Instr::Slti { rd, rs1, .. }
        | Instr::Sltiu { rd, rs1, .. }
        | Instr::Xori { rd, rs1, .. }
        | Instr::Ori { rd, rs1, .. }
        | Instr::Andi { rd, rs1, .. } => computes_one(rd, rs1),
        Instr::Add { rd, rs1, rs2, .. }
        | Instr::Sub { rd, rs1, rs2, .. }
        | Instr::Sll { rd, rs1, rs2, .. }
        | Instr::Slt { rd, rs1, rs2, .. }
        | Instr::Sltu { rd, rs1, rs2, .. }
        | Instr::Xor { rd, rs1, rs2, .. }
        | Instr::Srl { rd, rs1, rs2, .. }
        | Instr::Sra { rd, rs1, rs2, .. }
        | Instr::Or { rd, rs1, rs2, .. }
        | Instr::And { rd, rs1, rs2, .. } => computes(rd, rs1, rs2),
        Instr::Fence { .. } => none(),
        Instr::Ecall => none(),
        Instr::Ebreak => none(),
        Instr::Lwu { rd, rs1, .. } | Instr::Ld { rd, rs1, .. } => loads(rd, rs1),
        Instr::Sd { rs1, rs2, .. } => stores(rs1, rs2),
        Instr::Slli { rd, rs1, .. } | Instr::Srli { rd, rs1, .. } | Instr::Srai { rd, rs1, .. } =>
            computes_one(rd, rs1),
        Instr::Addiw { rd, rs1, .. } => computes_one(rd, rs1),
        Instr::Slliw { rd, rs1, .. }
        | Instr::Srliw { rd, rs1, .. }
        | Instr::Sraiw { rd, rs1, .. } => computes_one(rd, rs1),
        Instr::Addw { rd, rs1, rs2, .. }
        | Instr::Subw { rd, rs1, rs2, .. }
        | Instr::Sllw { rd, rs1, rs2, .. }
        | Instr::Srlw { rd, rs1, rs2, .. }
        | Instr::Sraw { rd, rs1, rs2, .. }
        | Instr::Mul { rd, rs1, rs2, .. }
        | Instr::Mulh { rd, rs1, rs2, .. }
        | Instr::Mulhsu { rd, rs1, rs2, .. }
        | Instr::Mulhu { rd, rs1, rs2, .. }
        | Instr::Div { rd, rs1, rs2, .. }
        | Instr::Divu { rd, rs1, rs2, .. }
        | Instr::Rem { rd, rs1, rs2, .. }
        | Instr::Remu { rd, rs1, rs2, .. }
        | Instr::Mulw { rd, rs1, rs2, .. }
        | Instr::Divw { rd, rs1, rs2, .. }
        | Instr::Divuw { rd, rs1, rs2, .. }
        | Instr::Remw { rd, rs1, rs2, .. }
        | Instr::Remuw { rd, rs1, rs2, .. } => computes(rd, rs1, rs2),
        Instr::LrW { rd, rs1, .. } | Instr::LrD { rd, rs1, .. } => loads(rd, rs1),
        Instr::ScW { rd, rs1, rs2, .. }
        | Instr::ScD { rd, rs1, rs2, .. }
        | Instr::AmoswapW { rd, rs1, rs2, .. }
        | Instr::AmoaddW { rd, rs1, rs2, .. }
        | Instr::AmoxorW { rd, rs1, rs2, .. }
        | Instr::AmoandW { rd, rs1, rs2, .. }
        | Instr::AmoorW { rd, rs1, rs2, .. }
        | Instr::AmominW { rd, rs1, rs2, .. }
        | Instr::AmomaxW { rd, rs1, rs2, .. }
        | Instr::AmominuW { rd, rs1, rs2, .. }
        | Instr::AmomaxuW { rd, rs1, rs2, .. }
        | Instr::AmoswapD { rd, rs1, rs2, .. }
        | Instr::AmoaddD { rd, rs1, rs2, .. }
        | Instr::AmoxorD { rd, rs1, rs2, .. }
        | Instr::AmoandD { rd, rs1, rs2, .. }
        | Instr::AmoorD { rd, rs1, rs2, .. }
        | Instr::AmominD { rd, rs1, rs2, .. }
        | Instr::AmomaxD { rd, rs1, rs2, .. }
        | Instr::AmominuD { rd, rs1, rs2, .. }
        | Instr::AmomaxuD { rd, rs1, rs2, .. } => exchanges(rd, rs1, rs2),
    }
}

fn none() -> Registers
    ensures { result ≡ none }
{
    let zero = Reg::new(0);
    Registers {
        address: zero,
        value: zero,
        first: zero,
        second: zero,
        destination: zero,
        carries: false,
        steers: false,
    }
}

fn sets(rd: Reg) -> Registers
    ensures { result ≡ sets rd }
{
    Registers {
        destination: rd,
        ..none()
    }
}

fn computes(rd: Reg, a: Reg, b: Reg) -> Registers
    ensures { result ≡ computes rd a b }
{
    Registers {
        first: a,
        second: b,
        destination: rd,
        carries: true,
        ..none()
    }
}

fn computes_one(rd: Reg, a: Reg) -> Registers
    ensures { result ≡ computes rd a 0 }
{
    computes(rd, a, Reg::new(0))
}

fn turns(rd: Reg, a: Reg) -> Registers
    ensures { result ≡ turns rd a }
{
    Registers {
        first: a,
        destination: rd,
        steers: true,
        ..none()
    }
}

fn branches(a: Reg, b: Reg) -> Registers
    ensures { result ≡ branches a b }
{
    Registers {
        first: a,
        second: b,
        steers: true,
        ..none()
    }
}

fn loads(rd: Reg, a: Reg) -> Registers
    ensures { result ≡ loads rd a }
{
    Registers {
        address: a,
        destination: rd,
        ..none()
    }
}

fn stores(a: Reg, d: Reg) -> Registers
    ensures { result ≡ stores a d }
{
    Registers {
        address: a,
        value: d,
        ..none()
    }
}

fn exchanges(rd: Reg, a: Reg, d: Reg) -> Registers
    ensures { result ≡ exchanges rd a d }
{
    Registers {
        address: a,
        value: d,
        destination: rd,
        ..none()
    }
}
