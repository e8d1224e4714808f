// Started kilometres, by the started metres.
ghost use Rattle.std.specs.Prelude.{◌≡◌, ◌≤◌, true, false};
ghost use Rattle.float.specs.Operators.{◌≺◌, ◌≼◌};
ghost use Rattle.float.specs.Constants.{+0};
ghost use Rattle.charge.specs.Least.{Least};
ghost use Rattle.charge.specs.Kilometres.{reaches, kilometres};
ghost use Rattle.charge.specs.Charge.{FARTHEST};

// The least whole number of metres that is not below a distance.
fn started_metres(d: f64) -> u64
    requires { ((d ≺ +0) ≡ false) × ((d ≼ FARTHEST) ≡ true) }
    ensures { Least (reaches d) result × (result ≤ 1000000) }
{
    let whole = std::num::truncating_f64_to_u64(d);
    let metres = whole as f64;
    if metres < d { whole + 1 } else { whole }
}

// A kilometre that has a started metre is started.
pub(crate) fn kilometres(d: f64) -> u64
    requires { ((d ≺ +0) ≡ false) × ((d ≼ FARTHEST) ≡ true) }
    ensures { (result ≡ kilometres d) × (result ≤ 1000) }
{
    (started_metres(d) + 999) / 1000
}
