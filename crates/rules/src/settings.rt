// The detection settings and the limits of the volume checks. A percentage is a part of WHOLE_PERCENT.
ghost use Rattle.std.specs.Prelude.{◌≡◌};
ghost use Rattle.rules.specs.Settings.{step_back};

#[derive(Clone, Copy)]
pub struct Settings;

impl Settings {
    const STEP_BACK: u16 = 1000;

    const STEP_BACK_OF_THREE: u16 = 100;

    pub const HIGH_MARK: u64 = 90;

    pub const LOW_MARK: u64 = 10;

    pub const LEAST_PERCENT: u8 = 20;

    pub const MOST_PERCENT: u8 = 200;

    pub const FRACTION: i64 = 10;

    pub const WHOLE_PERCENT: u8 = 100;

    pub const LOW_PERCENT: u8 = 20;

    pub const HIGH_PERCENT: u8 = 200;

    // On three dials no step back comes to 1000, so a turn of theirs is looked for from 100 on.
    pub fn step_back(n: u8) -> u16
        ensures { result ≡ step_back n }
    {
        if n == 3 {
            return Settings::STEP_BACK_OF_THREE;
        }
        Settings::STEP_BACK
    }
}
