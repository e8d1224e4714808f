// The travel charge of a stop, and each child's share of it.
ghost use Rattle.std.specs.Prelude.{◌≡◌};
ghost use Rattle.refusals.specs.Refusals.{number};
ghost use Rattle.charge.specs.Charge.{travel_charge, charge_of, shares_of};

use charge::bill_of;
use refusals::number;

// All shares are written, and of a refusal they and the charge are 0.
#[unsafe(no_mangle)]
pub extern "C" fn lenthuc_travel_charge(
    dx: f64,
    dy: f64,
    rate: u64,
    children: u64,
    charge: &mut u64,
    shares: &mut [u64; 60],
) -> u8
    ensures number { result ≡ number (travel_charge dx dy rate children) }
    ensures charge_after { charge.new ≡ charge_of (travel_charge dx dy rate children) }
    ensures shares_after { shares.new ≡ shares_of (travel_charge dx dy rate children) }
{
    let answer = charge::travel_charge(dx, dy, rate, children);
    let bill = bill_of(answer);
    let shared = bill.shares;
    *charge = bill.charge;
    *shares = shared;
    number(answer)
}
