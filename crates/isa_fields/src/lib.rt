// The fields of an instruction word: of 32 bits, and of 16. Each has its name, its definition and its edits; with the two numbers as
// const parameters a body would be a call in the place of one division and one remainder, which is no plainer.
#![tactic(auto)]

ghost use Rattle.std.specs.Prelude.{◌≡◌};
ghost use Rattle.isa_fields.specs.Compressed.{c_funct3_field, c_rs2_field, prime_field, quadrant_field};
ghost use Rattle.isa_fields.specs.Fields.{csr_field, funct3_field, opcode_field, rd_field, rs1_field, rs2_field};

#[tactic(auto, unfolding(crate::specs::Fields::opcode_field))]
pub fn opcode(word: u64) -> u64
    ensures { result ≡ opcode_field word }
{
    word % 128
}

#[tactic(auto, unfolding(crate::specs::Fields::rd_field))]
pub fn rd(word: u64) -> usize
    ensures { result ≡ rd_field word }
{
    (word / 128 % 32) as usize
}

#[tactic(auto, unfolding(crate::specs::Fields::funct3_field))]
pub fn funct3(word: u64) -> u64
    ensures { result ≡ funct3_field word }
{
    word / 4096 % 8
}

#[tactic(auto, unfolding(crate::specs::Fields::rs1_field))]
pub fn rs1(word: u64) -> usize
    ensures { result ≡ rs1_field word }
{
    (word / 0x8000 % 32) as usize
}

#[tactic(auto, unfolding(crate::specs::Fields::rs2_field))]
pub fn rs2(word: u64) -> usize
    ensures { result ≡ rs2_field word }
{
    (word / 0x10_0000 % 32) as usize
}

#[tactic(auto, unfolding(crate::specs::Fields::csr_field))]
pub fn csr(word: u64) -> u64
    ensures { result ≡ csr_field word }
{
    word / 0x10_0000 % 4096
}

// The fields of a 16-bit word begin here. Its rd, where it has one of 5 bits, lies where a 32-bit word has its own.

// The low two bits of any word.
#[tactic(auto, unfolding(crate::specs::Compressed::quadrant_field))]
pub fn quadrant(word: u64) -> u64
    ensures { result ≡ quadrant_field word }
{
    word % 4
}

#[tactic(auto, unfolding(crate::specs::Compressed::c_funct3_field))]
pub fn c_funct3(word: u64) -> u64
    ensures { result ≡ c_funct3_field word }
{
    word / 0x2000 % 8
}

// rd' or rs2': one of x8 to x15.
#[tactic(auto, unfolding(crate::specs::Compressed::prime_field))]
pub fn prime(word: u64) -> usize
    ensures { result ≡ prime_field word }
{
    (8 + word / 4 % 8) as usize
}

#[tactic(auto, unfolding(crate::specs::Compressed::c_rs2_field))]
pub fn c_rs2(word: u64) -> usize
    ensures { result ≡ c_rs2_field word }
{
    (word / 4 % 32) as usize
}
