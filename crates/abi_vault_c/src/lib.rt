// The functions of `abi_vault`, exported to C. A slice is passed as a pointer and a length, a fixed array as a pointer alone.
#![tactic(auto)]

ghost use Rattle.std.specs.Prelude.{◌≡◌, Result};
ghost use Rattle.refusals.specs.declared.Refusal.{Refusal};
ghost use Rattle.refusals.specs.Refusals.{answer_view};
ghost use Rattle.vault.specs.Columns.{to_columns, from_columns, Rearranged};
ghost use Rattle.abi.specs.Encoding.{returned};

#[unsafe(no_mangle)]
pub extern "C" fn mouldgrey_to_columns(width: u32, cells: &[u32], output: &mut [u32]) -> u32
    ensures { (answer : Result (Unit {0}) Refusal) × Rearranged to_columns width cells.now output.old answer output.new × (result ≡ returned (answer_view answer)) }
{
    abi_vault::mouldgrey_to_columns(width, cells, output)
}

#[unsafe(no_mangle)]
pub extern "C" fn mouldgrey_from_columns(width: u32, cells: &[u32], output: &mut [u32]) -> u32
    ensures { (answer : Result (Unit {0}) Refusal) × Rearranged from_columns width cells.now output.old answer output.new × (result ≡ returned (answer_view answer)) }
{
    abi_vault::mouldgrey_from_columns(width, cells, output)
}
