// The travel charge, and each child's share of it: document 02's Q-7.
#![tactic(auto)]

mod kilometres;
mod sharing;

ghost use Rattle.std.specs.Prelude.{◌≡◌};
ghost use Rattle.charge.specs.Charge.{travel_charge, charge_of, shares_of};

use kilometres::kilometres;
use refusals::Refusal;
use root::distance;
use sharing::shares;

// A higher rate, in the smallest coin, is refused.
const HIGHEST: u64 = 1000000;

// So are more children than this at one stop.
const MOST: u64 = 60;

// And so is a longer distance, in metres.
const FARTHEST: f64 = 1000000.0;

// A share is that of the child at its place; past the last child it is 0.
#[derive(Clone, Copy)]
pub struct Bill {
    pub charge: u64,
    pub shares: [u64; 60],
}

// The charge of a way whose ends differ by dx and dy metres, at so many coins a started kilometre, divided among children.
#[tactic(auto, using(crate::proofs::Billed::not_negative, crate::proofs::Billed::charge_low, crate::proofs::Billed::a_charge, crate::proofs::Billed::no_charge))]
pub fn travel_charge(dx: f64, dy: f64, rate: u64, children: u64) -> Result<Bill, Refusal>
    ensures { result ≡ travel_charge dx dy rate children }
{
    // A distance is never below 0, and a NaN passes no comparison.
    let d = distance(dx, dy);
    let good = (rate <= HIGHEST) & (1 <= children) & (children <= MOST) & (d <= FARTHEST);
    if good {
        let charge = kilometres(d) * rate;
        Ok(Bill {
            charge,
            shares: shares(charge, children),
        })
    } else {
        Err(Refusal::ChargeInput)
    }
}

// The bill of an answer, whatever it is: the charge and all shares are 0 where it is refused.
pub fn bill_of(answer: Result<Bill, Refusal>) -> Bill
    ensures { (result.charge ≡ charge_of answer) × (result.shares ≡ shares_of answer) }
{
    answer.unwrap_or(Bill {
        charge: 0,
        shares: [0; 60],
    })
}
