// A virtual-instruction trap: the guest's CSR instruction on stimecmp, in its six forms. The old timer and rs1's content are two numbers here,
// as stimecmp_by takes them.
#![tactic(auto)]

ghost use Rattle.std.specs.Prelude.{◌≡◌};
ghost use Rattle.scope.specs.VirtualInstruction.{stimecmp_word, stimecmp_stval, stimecmp_by};
ghost use Rattle.decide_virtual_inst.specs.Straight.{timer_of};
ghost use Rattle.isa_consts.specs.Csr.{stimecmp};

use scope::Stimecmp;

// What the word in stval does, with the old timer and rs1's content.
#[tactic(auto, unfolding(scope::specs::VirtualInstruction::stimecmp_stval))]
pub fn decide_stval(stval: u64, old: u64, rs1: u64) -> Stimecmp
    ensures { result ≡ stimecmp_stval stval old rs1 }
{
    let word = stval % 0x1_0000_0000;
    if isa_fields::opcode(word) == isa_consts::SYSTEM_OPCODE {
        return decide(word, old, rs1);
    }
    Stimecmp::Fetch
}

// What a word that stval or a fetch gave does.
#[tactic(auto, unfolding(scope::specs::VirtualInstruction::stimecmp_word))]
pub fn decide(word: u64, old: u64, rs1: u64) -> Stimecmp
    ensures { result ≡ stimecmp_word word old rs1 }
{
    if isa_fields::opcode(word) == isa_consts::SYSTEM_OPCODE
        && isa_fields::csr(word) == isa_consts::CSR_STIMECMP
    {
        return stimecmp(
            isa_fields::funct3(word),
            isa_fields::rd(word),
            isa_fields::rs1(word) as u64,
            old,
            rs1,
        );
    }
    Stimecmp::Illegal
}

// The forms by funct3. `field` is the rs1 field, as a register's index or as a number.
fn stimecmp(funct3: u64, rd: usize, field: u64, old: u64, rs1: u64) -> Stimecmp
    ensures { result ≡ stimecmp_by funct3 rd field old rs1 }
{
    if funct3 % 4 == 0 {
        return Stimecmp::Illegal;
    }
    if funct3 < 8 {
        return Stimecmp::Write {
            rd,
            timer: timer(funct3, field, old, rs1),
        };
    }
    Stimecmp::Illegal
}

// The new timer: rs1 or the field, alone, set or cleared in the old one; the last two write nothing where the field is 0. No jump
// follows the guest's words: what is chosen is a number or 0, since a choice of two numbers may be a jump where the processor has no
// conditional move. (`writes` is only held against 0.) The field is multiplied and not chosen, since the compiler makes one choice
// of two by the same test.
#[tactic(auto, unfolding(crate::specs::Straight::timer_of))]
fn timer(funct3: u64, field: u64, old: u64, rs1: u64) -> u64
    ensures { result ≡ timer_of funct3 field old rs1 }
{
    let given = isa_types::select(funct3 < 4, rs1, 0) | funct3 / 4 % 2 * field;
    let writes = isa_types::select(funct3 % 4 == 1, 1, field);
    let bits = isa_types::select(writes == 0, 0, given);
    let cleared = isa_types::select(funct3 % 4 == 3, bits, 0);
    let kept = isa_types::select(funct3 / 2 % 2 == 0, 0, old);
    kept & !cleared | (bits ^ cleared)
}
