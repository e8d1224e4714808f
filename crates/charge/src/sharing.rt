// Each child's share of a charge.
ghost use Rattle.std.specs.Prelude.{◌≡◌, ◌<◌, ◌≤◌};
ghost use Rattle.charge.specs.Shares.{shares};

// As many of the first children pay one coin more as coins are left over.
pub(crate) fn shares(charge: u64, children: u64) -> [u64; 60]
    requires { (0 < children) × (children ≤ 60) × (charge ≤ 1000000000) }
    ensures { result ≡ shares charge children }
{
    let share = charge / children;
    let rest = charge % children;
    let larger = rest as usize;
    let last = children as usize;
    let mut list = [0; 60];
    list[..larger].fill(share + 1);
    list[larger..last].fill(share);
    list
}
