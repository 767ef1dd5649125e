//! How full the levels are.
ghost use Rattle.std.specs.Prelude.{◌≡◌, ◌<◌, ◌≤◌};
ghost use Rattle.leveled.specs.Leveled.{score_of, scores};
ghost use Rattle.leveled.specs.Survey.{set_to, standing, hides};

use crate::survey::Survey;
use keys::key_kind::KeyKind;
use levels::scores::{LEVELS, first_level_score, level_score};
use sheets::sound::LAST_LEVEL;
use std::array;

impl<'a, K: KeyKind> Survey<'a, K> {
    /// The scores of the seven levels, where target sizes count from the level `first`. It serves the steps, whose first level is above 0: hence the `requires`.
    pub fn scores(&self, first: u8) -> [f64; LEVELS]
        requires first { 1 ≤ first }
        ensures { result ≡ scores (set_to self.now) (standing self.now) (hides self.now) first }
    {
        array::from_fn(|n| self.score(first, n as u8))
    }

    // The score of a level: level 0 scores by its table count, a level from the first to 5 by its free bytes, others not at all.
    #[tactic(auto, unfolding(crate::specs::Leveled::score_of))]
    fn score(&self, first: u8, n: u8) -> f64
        requires first { 1 ≤ first }
        requires within { n < 7 }
        ensures { result ≡ score_of (set_to self.now) (standing self.now) (hides self.now) first n }
    {
        if n == 0 {
            return first_level_score(self.level(0).table_count, self.settings.threshold);
        }
        if n < first || n >= LAST_LEVEL {
            return 0.0;
        }
        let target_size = self.settings.level_target_size(n - (first - 1));
        let next_is_empty = !self.has_tables(n + 1);
        level_score(self.level(n).free_bytes, target_size, next_is_empty)
    }
}
