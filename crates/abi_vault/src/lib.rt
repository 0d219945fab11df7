// Column order for the vault, for C (`abi_vault_c`). The functions return the refusal's number, or 0 if the output was written.
#![tactic(auto)]

ghost use Rattle.std.specs.Prelude.{◌≡◌, Result};
ghost use Rattle.refusals.specs.declared.Refusal.{Refusal};
ghost use Rattle.refusals.specs.Refusals.{answer_view};
ghost use Rattle.vault.specs.Columns.{to_columns, from_columns, Rearranged};
ghost use Rattle.abi.specs.Encoding.{returned};

use refusals::{ACCEPTED, Refusal};

fn number_of(answer: Result<(), Refusal>) -> u32
    ensures { result ≡ returned (answer_view answer) }
{
    match answer {
        Err(refusal) => refusal.into(),
        Ok(()) => ACCEPTED,
    }
}

pub fn mouldgrey_to_columns(width: u32, cells: &[u32], output: &mut [u32]) -> u32
    ensures { (answer : Result (Unit {0}) Refusal) × Rearranged to_columns width cells.now output.old answer output.new × (result ≡ returned (answer_view answer)) }
{
    let answer = vault::to_columns(width, cells, output);
    number_of(answer)
}

pub fn mouldgrey_from_columns(width: u32, cells: &[u32], output: &mut [u32]) -> u32
    ensures { (answer : Result (Unit {0}) Refusal) × Rearranged from_columns width cells.now output.old answer output.new × (result ≡ returned (answer_view answer)) }
{
    let answer = vault::from_columns(width, cells, output);
    number_of(answer)
}
