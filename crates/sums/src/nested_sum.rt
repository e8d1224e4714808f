ghost use Rattle.std.specs.Prelude.{◌≡◌};
ghost use Rattle.sums.specs.NestedSum.{nested};

// c[0] + w×(c[1] + w×(.. + w×c[n])), and 0 of no coefficients.
pub fn nested(w: f64, c: &[f64]) -> f64
    ensures { result ≡ nested w c.now }
{
    c.iter()
        .copied()
        .rev()
        .reduce(|sum, x| x + w * sum)
        .unwrap_or(0.0)
}
