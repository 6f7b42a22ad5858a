// The entry for cost, what the host sets up, as a static library that hosts in C and Rust link.
// Each export calls the function of its name in in_place_entry_setup, and promises what that promises. Both crates stand: no crate can depend
// on a static library, and the theorems and programs above depend on that one.
#![tactic(auto)]

ghost use Rattle.scope.specs.Words.{call_by};
ghost use Rattle.in_place_record.specs.View.{Done};

// A record of zeros but for what a guest finds at its start: a0 is its hart, a1 where the device tree lies.
#[unsafe(no_mangle)]
pub extern "C" fn vcpu_new(r: &mut [u64; 58], hart_id: u64, dtb_addr: u64) -> u64
    ensures { Done r.old (call_by 14 hart_id dtb_addr 0 0 0) r.new result }
{
    in_place_entry_setup::vcpu_new(r, hart_id, dtb_addr)
}

// The state that a guest starts with.
#[unsafe(no_mangle)]
pub extern "C" fn vcpu_setup(r: &mut [u64; 58]) -> u64
    ensures { Done r.old (call_by 1 0 0 0 0 0) r.new result }
{
    in_place_entry_setup::vcpu_setup(r)
}

// Where the guest starts.
#[unsafe(no_mangle)]
pub extern "C" fn vcpu_set_entry(r: &mut [u64; 58], entry: u64) -> u64
    ensures { Done r.old (call_by 2 entry 0 0 0 0) r.new result }
{
    in_place_entry_setup::vcpu_set_entry(r, entry)
}

// Sets the guest-stage page table.
#[unsafe(no_mangle)]
pub extern "C" fn vcpu_set_nested_page_table(
    r: &mut [u64; 58],
    levels: u64,
    mode: u64,
    root: u64,
) -> u64
    ensures { Done r.old (call_by 6 levels mode root 0 0) r.new result }
{
    in_place_entry_setup::vcpu_set_nested_page_table(r, levels, mode, root)
}
