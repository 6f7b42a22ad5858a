// The instruction behind a guest page fault: its length, and whether it is a load or a store.
// The handler knows this crate by its promises alone.
#![tactic(auto)]

ghost use Rattle.std.specs.Prelude.{◌≡◌};
ghost use Rattle.isa_decoder.specs.Compressed.{compressed_of, quadrant0_of, quadrant2_of, sp_load_of};
ghost use Rattle.isa_decoder.specs.Decode.{decode_of, load_of, store_of};
ghost use Rattle.isa_decoder.specs.Straight.{width_at};
ghost use Rattle.isa_decoder.specs.Length.{fetched_of, htinst_of, store_source, transformed_of};

use isa_types::Width;

// A load or store, whatever its encoding. Neither is a case and no None: decode_of and the laws over it take three.
#[derive(Clone, Copy)]
pub enum Decoded {
    Load {
        width: Width,
        signed: bool,
        rd: usize,
    },
    Store {
        width: Width,
        rs2: usize,
    },
    Neither,
}

// What htinst or a fetched word says of the instruction that trapped: four outcomes of one rank for htinst_of and fault_of, and no Result.
#[derive(Clone, Copy)]
pub enum Trapped {
    // htinst is 0: the word has to be fetched.
    Absent,
    // htinst names an access of the page-table walk and no instruction.
    Pseudo,
    // The low bits give no length that is taken.
    Unfit,
    Instruction { op: Decoded, length: u64 },
}

// What htinst says.
#[tactic(auto, unfolding(crate::specs::Length::htinst_of))]
pub fn from_htinst(htinst: u64) -> Trapped
    ensures { result ≡ htinst_of htinst }
{
    if htinst == 0 {
        return Trapped::Absent;
    }
    transformed(htinst % 0x1_0000_0000)
}

// What the low 32 bits of htinst say, where it is not 0.
#[tactic(auto, unfolding(crate::specs::Length::transformed_of))]
fn transformed(word: u64) -> Trapped
    ensures { result ≡ transformed_of word }
{
    if word == 0x3000 || word == 0x3020 {
        return Trapped::Pseudo;
    }
    if word % 2 == 0 {
        return Trapped::Unfit;
    }
    // bit 1 is the length: 2 bytes or 4
    Trapped::Instruction {
        op: decode(word | 2),
        length: 2 + word / 2 % 2 * 2,
    }
}

// What a fetched word says.
#[tactic(auto, unfolding(crate::specs::Length::fetched_of))]
pub fn from_fetched(word: u32) -> Trapped
    ensures { result ≡ fetched_of word }
{
    let w = word as u64;
    if w % 4 == 3 {
        if w / 4 % 8 == 7 {
            return Trapped::Unfit;
        }
        return Trapped::Instruction {
            op: decode(w),
            length: 4,
        };
    }
    Trapped::Instruction {
        op: compressed(w),
        length: 2,
    }
}

// The load or store that a 32-bit word is.
#[tactic(auto, unfolding(crate::specs::Decode::decode_by, crate::specs::Decode::decode_of))]
pub fn decode(word: u64) -> Decoded
    ensures { result ≡ decode_of word }
{
    match isa_fields::opcode(word) {
        0x03 => load(isa_fields::funct3(word), isa_fields::rd(word)),
        0x23 => store(isa_fields::funct3(word), isa_fields::rs2(word)),
        _ => Decoded::Neither,
    }
}

// The load or store that a 16-bit word is.
#[tactic(auto, unfolding(crate::specs::Compressed::compressed_by, crate::specs::Compressed::compressed_of))]
pub fn compressed(word: u64) -> Decoded
    ensures { result ≡ compressed_of word }
{
    match isa_fields::quadrant(word) {
        0 => quadrant0(isa_fields::c_funct3(word), isa_fields::prime(word)),
        2 => quadrant2(
            isa_fields::c_funct3(word),
            isa_fields::rd(word),
            isa_fields::c_rs2(word),
        ),
        _ => Decoded::Neither,
    }
}

// C.LW, C.LD, C.SW, C.SD (quadrant2 has the same tests over other fields, and another rule for a load: two definitions): bits 2 and 1 of funct3 are 01 in a load and 11 in a store, and its low two bits the width's place, as in a
// 32-bit word. The width is taken before the tests: behind them the compiler knows that two are left, and makes a jump of it.
fn quadrant0(funct3: u64, prime: usize) -> Decoded
    ensures { result ≡ quadrant0_of funct3 prime }
{
    let w = width(funct3 % 4);
    if funct3 / 2 == 1 {
        return Decoded::Load {
            width: w,
            signed: true,
            rd: prime,
        };
    }
    if funct3 / 2 == 3 {
        return Decoded::Store {
            width: w,
            rs2: prime,
        };
    }
    Decoded::Neither
}

// C.LWSP, C.LDSP, C.SWSP, C.SDSP.
fn quadrant2(funct3: u64, rd: usize, rs2: usize) -> Decoded
    ensures { result ≡ quadrant2_of funct3 rd rs2 }
{
    let w = width(funct3 % 4);
    if funct3 / 2 == 1 {
        return sp_load(w, rd);
    }
    if funct3 / 2 == 3 {
        return Decoded::Store { width: w, rs2 };
    }
    Decoded::Neither
}

// A load into x0 is reserved here, where a 32-bit one is a load.
#[tactic(auto, unfolding(crate::specs::Compressed::sp_load_of))]
fn sp_load(width: Width, rd: usize) -> Decoded
    ensures { result ≡ sp_load_of width rd }
{
    if rd == 0 {
        return Decoded::Neither;
    }
    Decoded::Load {
        width,
        signed: true,
        rd,
    }
}

// The register that a store moves; 0, which reads 0, where there is no store: store_source says so, and the caller needs no test.
#[tactic(auto, unfolding(crate::specs::Length::op_source, crate::specs::Length::store_source))]
pub fn store_source(t: Trapped) -> usize
    ensures { result ≡ store_source t }
{
    match t {
        Trapped::Instruction {
            op: Decoded::Store { rs2, .. },
            ..
        } => rs2,
        _ => 0,
    }
}

// The width at this place of the four, and the widest at any other; as constants alone, of which the compiler makes arithmetic and no
// jump.
#[tactic(auto, unfolding(crate::specs::Straight::width_at))]
pub fn width(n: u64) -> Width
    ensures { result ≡ width_at n }
{
    match n {
        0 => Width::Byte,
        1 => Width::Half,
        2 => Width::Word,
        _ => Width::Double,
    }
}

// The seven loads by funct3: the width is its low two bits, and from 4 on nothing is extended.
fn load(funct3: u64, rd: usize) -> Decoded
    ensures { result ≡ load_of funct3 rd }
{
    if funct3 < 7 {
        return Decoded::Load {
            width: width(funct3 % 4),
            signed: funct3 < 4,
            rd,
        };
    }
    Decoded::Neither
}

// The four stores by funct3.
fn store(funct3: u64, rs2: usize) -> Decoded
    ensures { result ≡ store_of funct3 rs2 }
{
    if funct3 < 4 {
        return Decoded::Store {
            width: width(funct3),
            rs2,
        };
    }
    Decoded::Neither
}
