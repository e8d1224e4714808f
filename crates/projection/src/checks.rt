// The checks of what is handed in.
ghost use Rattle.std.specs.Prelude.{◌≡◌};
ghost use Rattle.projection.specs.Checks.{validate_settings, validate_angle, validate_latitude_param, validate_offset, validate_lon_lat, validate_projected};

use crate::Settings;
use crate::bound::LAT_BOUND;
use float::{abs, is_finite};
use refusals::Refusal;

#[tactic(auto, unfolding(crate::specs::Checks::validate_angle))]
pub fn validate_angle(value: f64) -> Result<(), Refusal>
    ensures { result ≡ validate_angle value }
{
    if is_finite(value) {
        Ok(())
    } else {
        Err(Refusal::Lon0)
    }
}

#[tactic(auto, unfolding(crate::specs::Checks::validate_latitude_param))]
pub fn validate_latitude_param(value: f64) -> Result<(), Refusal>
    ensures { result ≡ validate_latitude_param value }
{
    if is_finite(value) {
        if LAT_BOUND < abs(value) {
            Err(Refusal::LatitudeSettingBeyond)
        } else {
            Ok(())
        }
    } else {
        Err(Refusal::LatitudeSetting)
    }
}

// The refusal is this offset's: the false easting's or the false northing's. It is handed on as it came, whatever type it has.
#[tactic(auto, unfolding(crate::specs::Checks::validate_offset))]
pub fn validate_offset<R: Copy>(value: f64, refusal: R) -> Result<(), R>
    ensures { result ≡ validate_offset value refusal }
{
    if is_finite(value) {
        Ok(())
    } else {
        Err(refusal)
    }
}

// The settings that the kinds share, in document 01's order. A latitude that a kind does not have is 0, which passes.
#[tactic(auto, unfolding(crate::specs::Checks::validate_settings))]
pub fn validate_settings(settings: Settings) -> Result<(), Refusal>
    ensures { result ≡ validate_settings settings }
{
    validate_angle(settings.lon0)?;
    validate_latitude_param(settings.lat0)?;
    validate_latitude_param(settings.lat1)?;
    validate_latitude_param(settings.lat2)?;
    validate_offset(settings.false_easting, Refusal::FalseEasting)?;
    validate_offset(settings.false_northing, Refusal::FalseNorthing)
}

#[tactic(auto, unfolding(crate::specs::Checks::validate_lon_lat))]
pub fn validate_lon_lat(lon: f64, lat: f64) -> Result<(), Refusal>
    ensures { result ≡ validate_lon_lat lon lat }
{
    if is_finite(lon) & is_finite(lat) {
        if LAT_BOUND < abs(lat) {
            Err(Refusal::ForwardBeyond)
        } else {
            Ok(())
        }
    } else {
        Err(Refusal::ForwardInput)
    }
}

#[tactic(auto, unfolding(crate::specs::Checks::validate_projected))]
pub fn validate_projected(x: f64, y: f64) -> Result<(), Refusal>
    ensures { result ≡ validate_projected x y }
{
    if is_finite(x) & is_finite(y) {
        Ok(())
    } else {
        Err(Refusal::InverseInput)
    }
}
