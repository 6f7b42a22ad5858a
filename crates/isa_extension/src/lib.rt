// A number cut to a width and extended from it. No branch hangs on the width or the sign: a guest's loads come in any order, and a
// jump that follows them is often foretold wrong.
#![tactic(auto)]

ghost use Rattle.std.specs.Prelude.{◌≡◌, ◌-◌, ◌^◌};
ghost use Rattle.isa_extension.specs.Extend.{cut_of, extend_of, width_bits};

use isa_types::Width;

// A number cut to a width: what a store writes.
#[tactic(auto, unfolding(crate::specs::Extend::cut_of, crate::specs::Extend::width_bits))]
pub fn cut(width: Width, n: u64) -> u64
    ensures { result ≡ cut_of width n }
{
    n & mask(width)
}

// A number cut to a width and extended: what a load writes.
pub fn extend(width: Width, signed: bool, n: u64) -> u64
    ensures { result ≡ extend_of width signed n }
{
    let m = mask(width);
    let low = n & m;
    // from here on a number stands for a negative one; for an unsigned load no number below the last does
    let negative = isa_types::select(signed, m / 2 + 1, 0xFFFF_FFFF_FFFF_FFFF);
    let above = isa_types::select(low < negative, 0, 0xFFFF_FFFF_FFFF_FFFF - m);
    low.wrapping_add(above)
}

// The bits of a width, all set; as constants alone, of which the compiler makes a table and no jump.
#[tactic(auto, unfolding(crate::specs::Extend::width_bits))]
fn mask(width: Width) -> u64
    ensures { result ≡ 2 ^ width_bits width - 1 }
{
    match width {
        Width::Byte => 0xFF,
        Width::Half => 0xFFFF,
        Width::Word => 0xFFFF_FFFF,
        Width::Double => 0xFFFF_FFFF_FFFF_FFFF,
    }
}
