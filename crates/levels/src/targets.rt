//! The target size of each level. What is public here serves the crates above, which have checked the settings.
ghost use Rattle.std.specs.Prelude.{◌≡◌, ◌<◌, ◌≤◌, true};
ghost use Rattle.levels.specs.Settings.{in_limits};
ghost use Rattle.levels.specs.Targets.{ratio_at, base_size, target_at, AllFinite};

use crate::rounding::nearest_f32;
use crate::settings::Settings;
use std::num::saturating_f32_to_u64;

impl Settings {
    /// The target size of level 1, in bytes.
    pub fn level_base_size(&self) -> u64
        requires { in_limits self.now ≡ true }
        ensures { result ≡ base_size self.now }
    {
        self.target_size * self.threshold as u64
    }

    /// The target size of a level from 1 on, in bytes: that of level 1, times a ratio for each level after it.
    pub fn level_target_size(&self, canonical_level: u8) -> u64
        requires { (in_limits self.now ≡ true) × (0 < canonical_level) }
        ensures value { result ≡ target_at self.now canonical_level }
        ensures finite { AllFinite self.now }
        ensures positive { canonical_level ≤ 6 → 0 < result }
    {
        let base = self.level_base_size();
        if canonical_level == 1 {
            return base;
        }
        let ratios = self.level_ratio_policy();
        let size = (0..canonical_level as usize - 1).fold(
            nearest_f32(base),
            |size, i| size * ratio_at(ratios, i),
        );
        saturating_f32_to_u64(size)
    }
}

// Ratio i, counted from 0: the one given, else the last given, or 10.0.
fn ratio_at(ratios: &[f32], i: usize) -> f32
    ensures { result ≡ ratio_at ratios.now i }
{
    ratios.get(i).or(ratios.last()).copied().unwrap_or(10.0)
}
