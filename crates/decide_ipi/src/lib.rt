// Inter-processor interrupts: the requests that a guest makes through SBI.
#![tactic(auto)]

ghost use Rattle.std.specs.Prelude.{◌≡◌};
ghost use Rattle.scope.specs.Ecalls.{legacy_request, standard_request};

use scope::{IpiAbi, IpiRequest};

// The request of extension sPI: mask and base as given.
#[tactic(auto, unfolding(scope::specs::Ecalls::standard_request))]
pub fn standard_request(mask: u64, base: u64) -> IpiRequest
    ensures { result ≡ standard_request mask base }
{
    IpiRequest {
        mask,
        base,
        abi: IpiAbi::SbiV02,
    }
}

// The request of the legacy call, from how many bytes the host could copy and their number: base 0. A short read is none.
#[tactic(auto, unfolding(scope::specs::Ecalls::legacy_request))]
pub fn legacy_request(count: u64, bytes: u64) -> Option<IpiRequest>
    ensures { result ≡ legacy_request count bytes }
{
    if count == isa_consts::HART_MASK_BYTES {
        return Some(IpiRequest {
            mask: bytes,
            base: 0,
            abi: IpiAbi::Legacy,
        });
    }
    None
}
