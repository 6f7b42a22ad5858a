// What a word that the host hands in is read as. scope/specs/Words.antt defines it, and WordsLaws.antt has that each value's
// own number is read back as it.

ghost use Rattle.std.specs.Prelude.{◌≡◌, ℕ};
ghost use Rattle.scope.specs.Words.{abi_of, access_of, completion_of, tested, width_of};
ghost use Rattle.scope.specs.WordsLaws.{abi_back, access_back, completion_back, flag_back, width_back};

use crate::Numbered;
use isa_types::Width;
use scope::{Access, IpiAbi, IpiCompletion};

// A value that a number is read as. No number is refused.
pub trait FromNumber: Numbered {
    ghost read_of: { ℕ → Self };

    fn from_number(n: u64) -> Self
        ensures { result ≡ read_of n };

    // A value is read of its own number.
    ghost reads_back: { (x : Self) → read_of (Self.number_of x) ≡ x };
}

// The width of this many bytes; any other number is read as 8. Its place among the four counts those that it is wider than, and no jump
// hangs on which load waits.
impl FromNumber for Width {
    ghost read_of = { width_of };

    ghost reads_back = { width_back };

    #[tactic(auto, using(crate::specs::Places::width_placed))]
    fn from_number(n: u64) -> Width {
        let byte = isa_types::select(n == 1, 0, 1);
        let half = isa_types::select(n == 2, 0, byte);
        let word = isa_types::select(n == 4, 0, half);
        isa_decoder::width(byte + half + word)
    }
}

// The access of this flag; any other number is read as execute.
impl FromNumber for Access {
    ghost read_of = { access_of };

    ghost reads_back = { access_back };

    #[tactic(auto, unfolding(scope::specs::Words::access_of, scope::specs::OneTrap::access_number))]
    fn from_number(n: u64) -> Access {
        match n {
            1 => Access::Read,
            2 => Access::Write,
            _ => Access::Execute,
        }
    }
}

// The calling convention of this number; any other than 0 is read as v0.2.
impl FromNumber for IpiAbi {
    ghost read_of = { abi_of };

    ghost reads_back = { abi_back };

    #[tactic(auto, unfolding(scope::specs::Words::abi_of, scope::specs::OneTrap::abi_number))]
    fn from_number(n: u64) -> IpiAbi {
        match n {
            0 => IpiAbi::Legacy,
            _ => IpiAbi::SbiV02,
        }
    }
}

// What the host made of an IPI request, by SBI's number; any other than 0 and -3 is read as a failure.
impl FromNumber for IpiCompletion {
    ghost read_of = { completion_of };

    ghost reads_back = { completion_back };

    #[tactic(auto, unfolding(scope::specs::Words::completion_of, scope::specs::Ecalls::completion_number))]
    fn from_number(n: u64) -> IpiCompletion {
        match n {
            isa_consts::RET_SUCCESS => IpiCompletion::Success,
            isa_consts::RET_ERR_INVALID_PARAM => IpiCompletion::InvalidParameter,
            _ => IpiCompletion::Failed,
        }
    }
}

// A word as a test: 0 is no.
impl FromNumber for bool {
    ghost read_of = { tested };

    ghost reads_back = { flag_back };

    #[tactic(auto, unfolding(scope::specs::Words::tested, scope::specs::OneTrap::flag_of))]
    fn from_number(n: u64) -> bool {
        n != 0
    }
}
