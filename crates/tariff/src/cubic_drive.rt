// The cubic drive: the charge is a cubic in the speed, in every slot.
ghost use Rattle.std.specs.Prelude.{◌≡◌};
ghost use Rattle.tariff.specs.Bounds.{cubic_charge};
ghost use Rattle.tariff.specs.Checks.{coefficients_of, coefficients_within, told, unless_past};
ghost use Rattle.tariff.specs.Within.{drive_within};

use super::{Coefficients, Tariff, TariffRefusal};

impl Coefficients {
    /// The coefficients, refused if base passes 100,000, linear 10,000 or cube 200.
    // Public by this name: a `TryFrom` beside it would be a second way.
    pub fn checked(base: u32, linear: u32, cube: u32) -> Result<Self, TariffRefusal>
        ensures { told coefficients_of result ≡ unless_past (coefficients_within base linear cube) (base, linear, cube) }
    {
        if base <= 100_000 && linear <= 10_000 && cube <= 200 {
            Ok(Coefficients { base, linear, cube })
        } else {
            Err(TariffRefusal::PastBound)
        }
    }
}

/// A tariff that charges base + linear × s + cube × s³ for the speed s.
#[derive(Clone, Copy)]
pub struct CubicDrive {
    coefficients: Coefficients,
}

impl CubicDrive {
    /// The drive of these coefficients.
    pub fn new(coefficients: Coefficients) -> Self
        ensures { result.coefficients ≡ coefficients }
    {
        CubicDrive { coefficients }
    }
}

impl Tariff for CubicDrive {
    ghost charge = { λ d k s. cubic_charge d.coefficients.base d.coefficients.linear d.coefficients.cube s };

    ghost bounded = { λ t k s h i. drive_within t.coefficients.base t.coefficients.linear t.coefficients.cube s t.coefficients.bounded i };

    #[tactic(auto, using(crate::specs::Cubic::linear_part, crate::specs::Cubic::cube_part))]
    fn charge_for(&self, _slot: u32, speed: u32) -> u32 {
        let s = speed.min(15);
        let c = self.coefficients;
        c.base + c.linear * s + c.cube * (s * s * s)
    }
}
