//! The leveled strategy, step by step.
ghost use Rattle.std.specs.Prelude.{◌≤◌, length};
ghost use Rattle.levels.specs.Scores.{chosen};
ghost use Rattle.leveled.specs.Leveled.{scores, won, leveled};
ghost use Rattle.leveled.specs.Survey.{set_to, standing, hides};
ghost use Rattle.leveled.specs.Writing.{Gives};
ghost use Rattle.leveled.specs.Laws.{leveled_lawful};

use crate::first_level::FirstLevel;
use crate::survey::Survey;
use keys::key_kind::KeyKind;
use levels::scores::chosen_level;
use levels::settings::Settings;
use sheets::sound::LAST_LEVEL;
use strategies::choice::Choice;
use strategies::declined::Declined;
use strategies::snapshot::Snapshot;
use strategies::strategy::CompactionStrategy;

/// The leveled strategy.
#[derive(Clone, Copy)]
pub struct Leveled;

impl<K: KeyKind> CompactionStrategy<K> for Leveled {
    type Settings = Settings;

    ghost chooses = { λ s ts hs blobs clock. leveled K.ranks s ts hs };

    ghost keeps = { λ s blobs clock. leveled_lawful K.KeyKind.total s };

    fn choose(
        settings: &Settings,
        snapshot: &Snapshot<'_, K>,
        ids: &mut [u64],
    ) -> Result<Choice, Declined> {
        settings.check().map_err(|_| Declined::BadSetting)?;
        let survey = Survey::new(settings, snapshot.tables, snapshot.hidden_set);
        Ok(survey.choose(ids))
    }
}

impl<'a, K: KeyKind> Survey<'a, K> {
    // Level 0 moves to the last level or to the first one if it can; else the level that is fullest is merged into the next.
    fn choose(&self, ids: &mut [u64]) -> Choice
        requires room { length (standing self.now) ≤ length ids.old }
        ensures { Gives (leveled K.ranks (set_to self.now) (standing self.now) (hides self.now)) result ids.old ids.new }
    {
        if self.sinks() {
            return self.move_first(LAST_LEVEL, ids);
        }
        let first = self.first_level();
        if self.slides(first) {
            return self.move_first(first.n, ids);
        }
        self.merge_fullest(first, ids)
    }

    // By the level with the highest score.
    fn merge_fullest(&self, first: FirstLevel, ids: &mut [u64]) -> Choice
        requires room { length (standing self.now) ≤ length ids.old }
        ensures { Gives (won K.ranks (set_to self.now) (standing self.now) (hides self.now) first.n (chosen (scores (set_to self.now) (standing self.now) (hides self.now) first.n))) result ids.old ids.new }
    {
        let scores = self.scores(first.n);
        match chosen_level(&scores) {
            None => Choice::DoNothing,
            Some(0) => self.merge_first(first, ids),
            Some(n) => self.compact(first, n as u8, ids),
        }
    }
}
