// The brackets of the four formulas: series in the distance from the central meridian.
ghost use Rattle.std.specs.Prelude.{◌≡◌};
ghost use Rattle.cassini_soldner.specs.Series.{easting_series, northing_series, longitude_series, latitude_series};

#[tactic(auto, unfolding(crate::specs::Series::easting_series))]
pub(crate) fn easting_series(a_coeff: f64, t: f64, c: f64) -> f64
    ensures { result ≡ easting_series a_coeff t c }
{
    let a2 = a_coeff * a_coeff;
    let a4 = a2 * a2;
    a_coeff - t * a2 * a_coeff / 6.0 - (8.0 - t + 8.0 * c) * t * a4 * a_coeff / 120.0
}

#[tactic(auto, unfolding(crate::specs::Series::northing_series))]
pub(crate) fn northing_series(a_coeff: f64, t: f64, c: f64) -> f64
    ensures { result ≡ northing_series a_coeff t c }
{
    let a2 = a_coeff * a_coeff;
    let a4 = a2 * a2;
    a2 / 2.0 + (5.0 - t + 6.0 * c) * a4 / 24.0
}

#[tactic(auto, unfolding(crate::specs::Series::longitude_series))]
pub(crate) fn longitude_series(d: f64, t1: f64) -> f64
    ensures { result ≡ longitude_series d t1 }
{
    let d2 = d * d;
    let d4 = d2 * d2;
    d - t1 * d2 * d / 3.0 + (1.0 + 3.0 * t1) * t1 * d4 * d / 15.0
}

#[tactic(auto, unfolding(crate::specs::Series::latitude_series))]
pub(crate) fn latitude_series(d: f64, t1: f64) -> f64
    ensures { result ≡ latitude_series d t1 }
{
    let d2 = d * d;
    let d4 = d2 * d2;
    d2 / 2.0 - (1.0 + 3.0 * t1) * d4 / 24.0
}
