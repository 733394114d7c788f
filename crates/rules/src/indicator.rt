// What the submitted indicator makes of the detection.
ghost use Rattle.std.specs.Prelude.{◌≡◌};
ghost use Rattle.rules.specs.Indicator.{indicated};

use crate::detection::Detected;
use terms::refusal::Refusal;
use terms::submission::Indicator;

// The flag that a read is taken with. 17 where the indicator denies what detection found, 18 where detection is unclear and the indicator silent.
pub fn indicate(found: Detected, indicator: u8) -> Result<u8, Refusal>
    ensures { result ≡ indicated found indicator }
{
    match found {
        Detected::Rollover => {
            if indicator == Indicator::False as u8 {
                return Err(Refusal::Ee);
            }
            Ok(1)
        }
        Detected::NotRollover => {
            if indicator == Indicator::True as u8 {
                return Err(Refusal::Ee);
            }
            Ok(0)
        }
        Detected::Indeterminate => {
            if indicator == Indicator::NotSet as u8 {
                return Err(Refusal::Ef);
            }
            if indicator == Indicator::True as u8 {
                return Ok(1);
            }
            Ok(0)
        }
    }
}
