// 02, 2.11: the boundary to C of charges and totals. Any arguments get an answer.
ghost use Rattle.std.specs.Prelude.{◌≡◌, cond, [], ◌*◌, ◌^◌, ◌≤◌};
ghost use Rattle.model.specs.Ledger.{most_bales, charge_call, total_call};
ghost use Rattle.ledger.specs.Answers.{charge_answer, total_answer};
ghost use Rattle.abi.specs.Charging.{charge_word, returned_charge, packed_charge, total_word};

use ledger::{Charging, Totalled};

// Whether the ledger got the bale, as a number.
fn entered_bit(entered: bool) -> u64
    ensures { (result ≡ cond entered 1 0) × (result ≤ 1) }
{
    if entered {
        return 1;
    }
    0
}

// What a charge answers as one number.
fn pack_charge(a: Charging) -> u64
    requires { a.charge ≤ 600000 }
    ensures { result ≡ charge_word (charge_answer a []) }
{
    a.number as u64 + 256 * (entered_bit(a.entered) + 16777216 * (a.charge as u64))
}

// What a total answers as one number.
fn pack_total(a: Totalled) -> u64
    requires { a.total ≤ most_bales * 2 ^ 32 }
    ensures { result ≡ total_word (total_answer a) }
{
    a.number as u64 + 256 * (a.total as u64)
}

// Charges one ticket that was handed out. The number in bits 0 to 7, bit 8 set where the ledger got the bale, the charge in cents in 32 to 63.
// A ticket that passes answers 0, a refusal is the number alone; neither changes the ledger.
#[unsafe(no_mangle)]
pub extern "C" fn yarngravel_charge(rate: u32, payload: &[u8], ledger: &mut [u8]) -> u64
    ensures { returned_charge result ledger.new ≡ packed_charge (charge_call rate payload.now ledger.old) }
{
    let charged = ledger::charge(rate, payload, ledger);
    pack_charge(charged)
}

// A grower's total in cents, from bit 8 on; the number in bits 0 to 7. The ledger is only read.
#[unsafe(no_mangle)]
pub extern "C" fn yarngravel_total(grower: u16, ledger: &[u8]) -> u64
    ensures { result ≡ total_word (total_call grower ledger.now) }
{
    let totalled = ledger::total(grower, ledger);
    pack_total(totalled)
}
