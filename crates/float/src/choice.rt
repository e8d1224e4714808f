ghost use Rattle.std.specs.Prelude.{◌≡◌, cond};

// x where b holds, else y: a choice between two values that are both worked out already.
pub fn pick(b: bool, x: f64, y: f64) -> f64
    ensures { result ≡ cond b x y }
{
    if b { x } else { y }
}
