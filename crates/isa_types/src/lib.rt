// The types that stand below all others: the two kinds of guest address, and the width of an access. specs/Pick.antt has the
// choice by a test that every definition is written with.
#![tactic(auto)]

ghost use Rattle.std.specs.Prelude.{◌≡◌};
ghost use Rattle.isa_types.specs.Pick.{pick};

// An address in a guest's physical memory.
#[derive(Clone, Copy)]
pub struct GuestPhysAddr(pub u64);

// An address as the guest's own page tables see it.
#[derive(Clone, Copy)]
pub struct GuestVirtAddr(pub u64);

// How many bytes a load or store moves.
#[derive(Clone, Copy)]
pub enum Width {
    Byte,
    Half,
    Word,
    Double,
}

// The choice of two numbers that are there, which may hang on a guest's words: no jump follows the test where the processor has a
// conditional move, nor on any where one of them is 0.
pub fn select(test: bool, one: u64, other: u64) -> u64
    ensures { result ≡ pick test one other }
{
    if test {
        return one;
    }
    other
}
