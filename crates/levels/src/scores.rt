//! The scores of the levels. What is public here serves the crates above, which have checked the settings and the sizes.
ghost use Rattle.std.specs.Prelude.{◌≡◌, ◌^◌, ◌<◌, ◌≤◌};
ghost use Rattle.levels.specs.Scores.{level_score, first_level_score, Scored, winner, chosen, AllScored, Chooses};

/// How many levels there are.
pub const LEVELS: usize = 7;

/// The score of level 0: its table count over the threshold, if that is at least 1.
pub fn first_level_score(table_count: usize, threshold: u32) -> f64
    requires { table_count ≤ 2 ^ 53 }
    ensures value { result ≡ first_level_score table_count threshold }
    ensures scored { 0 < threshold → Scored result }
{
    if table_count >= threshold as usize {
        table_count as f64 / threshold as f64
    } else {
        0.0
    }
}

/// The score of a level from 1 on: its free bytes over its target size, if they are more, and 99.99 to force a move into an empty level.
pub fn level_score(free_bytes: u64, target_size: u64, next_is_empty: bool) -> f64
    requires { free_bytes ≤ 2 ^ 53 }
    ensures value { result ≡ level_score free_bytes target_size next_is_empty }
    ensures scored { 0 < target_size → Scored result }
{
    if free_bytes <= target_size {
        0.0
    } else if next_is_empty {
        99.99
    } else {
        free_bytes as f64 / target_size as f64
    }
}

/// The level with the highest score, the last among equals: none where that is below 1.
pub fn chosen_level(scores: &[f64; LEVELS]) -> Option<usize>
    ensures value { result ≡ chosen scores.now }
    ensures highest { AllScored scores.now → Chooses scores.now result }
{
    let level = highest(scores);
    if scores[level] < 1.0 {
        None
    } else {
        Some(level)
    }
}

// The place of the highest score, the last among equals.
fn highest(scores: &[f64; LEVELS]) -> usize
    ensures value { result ≡ winner scores.now 7 }
    ensures within { result < 7 }
{
    let mut best = 0;
    for (i, score) in scores.iter().enumerate() {
        if scores[best] <= *score {
            best = i;
        }
    }
    best
}
