//! What leveled is set to, and the limits of its settings.
ghost use Rattle.std.specs.Prelude.{◌≡◌};
ghost use Rattle.levels.specs.Settings.{defaults, with_target_size, with_threshold, with_ratios, ratios_of, allowed, all_allowed, checked};

use refusals::refusal::Refusal;

// The largest target size, 2^40.
const MAX_TARGET_SIZE: u64 = 1 << 40;

// The largest threshold.
const MAX_THRESHOLD: u32 = 255;

/// How many ratios settings hold.
pub const RATIOS: usize = 5;

/// The settings of leveled. Any value can be written here; `check` refuses those outside the limits.
// Five places and a count in place of a list: settings are copied, and the library has no heap.
#[derive(Clone, Copy)]
pub struct Settings {
    /// The target size of a table in bytes, from 1 to 2^40.
    pub target_size: u64,
    /// How many tables of level 0 it takes to merge them into level 1, from 1 to 255.
    pub threshold: u32,
    /// The growth from level to level, each ratio from 1.0 to 1,000.0. Places past those given are not read.
    pub ratios: [f32; RATIOS],
    /// How many ratios are given, at most five. A missing one is the last given, or 10.0 where none is.
    pub given: usize,
}

impl Default for Settings {
    ghost is_default = { λ s. s ≡ defaults };

    /// Tables of 64 MiB, four tables on level 0, and each level ten times the one before.
    fn default() -> Settings
        ensures { result ≡ defaults }
    {
        Settings {
            target_size: 67_108_864,
            threshold: 4,
            ratios: [10.0, 0.0, 0.0, 0.0, 0.0],
            given: 1,
        }
    }
}

impl Settings {
    /// Sets the target size of a table, in bytes.
    pub fn with_table_target_size(self, bytes: u64) -> Settings
        ensures { result ≡ with_target_size bytes self }
    {
        Settings {
            target_size: bytes,
            ..self
        }
    }

    /// Sets how many tables of level 0 it takes to merge them into level 1.
    pub fn with_l0_threshold(self, threshold: u32) -> Settings
        ensures { result ≡ with_threshold threshold self }
    {
        Settings { threshold, ..self }
    }

    /// Sets the growth from level to level. Five ratios are kept; more are counted, and `check` refuses them.
    pub fn with_level_ratio_policy(self, policy: &[f32]) -> Settings
        ensures { result ≡ with_ratios policy.now self }
    {
        let kept = policy.len().min(RATIOS);
        let mut ratios = [0.0; RATIOS];
        ratios[0..kept].copy_from_slice(&policy[0..kept]);
        Settings {
            ratios,
            given: policy.len(),
            ..self
        }
    }

    // The ratios that are given.
    pub(crate) fn level_ratio_policy(&self) -> &[f32]
        ensures { result.now ≡ ratios_of self.now }
    {
        &self.ratios[..self.given.min(RATIOS)]
    }

    /// Refuses settings outside their limits, and ratios that are no number.
    pub fn check(&self) -> Result<(), Refusal>
        ensures { result ≡ checked self.now }
    {
        if (1..=MAX_TARGET_SIZE).contains(&self.target_size)
            && (1..=MAX_THRESHOLD).contains(&self.threshold)
            && self.given <= RATIOS
            && are_allowed(self.level_ratio_policy())
        {
            Ok(())
        } else {
            Err(Refusal::BadSetting)
        }
    }
}

// Whether every ratio is within its limits.
fn are_allowed(ratios: &[f32]) -> bool
    ensures { result ≡ all_allowed ratios.now }
{
    ratios.iter().all(|ratio| is_allowed(*ratio))
}

// Whether a ratio is within its limits. No comparison with a NaN holds.
fn is_allowed(ratio: f32) -> bool
    ensures { result ≡ allowed ratio }
{
    1.0 <= ratio && ratio <= 1000.0
}
