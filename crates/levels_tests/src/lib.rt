//! Tests of leveled's settings, target sizes and scores.
#![tactic(auto)]

ghost use Rattle.std.specs.Prelude.{◌^◌, ◌<◌};

#[cfg(test)]
mod tests {
    use levels::rounding::round_to_24_bits;
    use levels::scores::{chosen_level, first_level_score, level_score};
    use levels::settings::Settings;
    use refusals::refusal::Refusal;

    // The number that digits and unit stand for.
    fn rounded(x: u64) -> u64
        requires { x < 2 ^ 48 }
    {
        let r = round_to_24_bits(x);
        r.digits as u64 * r.unit as u64
    }

    // Settings by their three parts.
    fn set(target_size: u64, threshold: u32, policy: &[f32]) -> Settings {
        Settings::default()
            .with_table_target_size(target_size)
            .with_l0_threshold(threshold)
            .with_level_ratio_policy(policy)
    }

    // The target size of a level: none where the settings are refused.
    fn target(settings: Settings, level: u8) -> Option<u64>
        requires { 0 < level }
    {
        settings.check().ok()?;
        Some(settings.level_target_size(level))
    }

    fn is_bad(settings: Settings) -> bool {
        settings.check() == Err(Refusal::BadSetting)
    }

    #[test]
    fn rounds(rt: HostRuntime) {
        assert_eq!(rt; rounded(0), 0);
        assert_eq!(rt; rounded(16_777_217), 16_777_216);
        assert_eq!(rt; rounded(16_777_219), 16_777_220);
        assert_eq!(rt; rounded(33_554_431), 33_554_432);
        assert_eq!(rt; rounded(281_474_976_710_655), 281_474_976_710_656);
    }

    #[test]
    fn targets_without_ratios(rt: HostRuntime) {
        let settings = set(100, 4, &[]);
        assert_eq!(rt; target(settings, 1), Some(400));
        assert_eq!(rt; target(settings, 2), Some(4_000));
        assert_eq!(rt; target(settings, 3), Some(40_000));
        assert_eq!(rt; target(Settings::default(), 6), Some(26_843_545_600_000));
    }

    #[test]
    fn targets_with_ratios(rt: HostRuntime) {
        let settings = set(100, 1, &[2.0, 3.0]);
        assert_eq!(rt; target(settings, 2), Some(200));
        assert_eq!(rt; target(settings, 3), Some(600));
        assert_eq!(rt; target(settings, 4), Some(1_800));
        assert_eq!(rt; target(set(1, 3, &[1.1]), 3), Some(3));
        assert_eq!(rt; target(set(16_777_217, 1, &[1.0]), 1), Some(16_777_217));
        assert_eq!(rt; target(set(16_777_217, 1, &[1.0]), 2), Some(16_777_216));
        // rounded first to 16,777,220, then multiplied
        assert_eq!(rt; target(set(16_777_219, 1, &[1.5]), 2), Some(25_165_830));
    }

    #[test]
    fn largest_target_stops_at_64_bits(rt: HostRuntime) {
        let settings = set(1_099_511_627_776, 255, &[1000.0]);
        assert_eq!(rt; target(settings, 1), Some(280_375_465_082_880));
        assert_eq!(rt; target(settings, 2), Some(280_375_465_082_880_000));
        assert_eq!(rt; target(settings, 3), Some(u64::MAX));
        assert_eq!(rt; target(settings, 6), Some(u64::MAX));
    }

    #[test]
    fn limits_of_size_and_threshold(rt: HostRuntime) {
        assert!(rt; !is_bad(set(1, 1, &[])));
        assert!(rt; !is_bad(set(1_099_511_627_776, 255, &[])));
        assert!(rt; is_bad(set(0, 4, &[])));
        assert!(rt; is_bad(set(1_099_511_627_777, 4, &[])));
        assert!(rt; is_bad(set(100, 0, &[])));
        assert!(rt; is_bad(set(100, 256, &[])));
    }

    #[test]
    fn limits_of_ratios(rt: HostRuntime) {
        assert!(rt; !is_bad(set(100, 4, &[1.0, 1000.0])));
        assert!(rt; is_bad(set(100, 4, &[0.999_999_94])));
        assert!(rt; is_bad(set(100, 4, &[10.0, 1000.000_06])));
        assert!(rt; is_bad(set(100, 4, &[f32::NAN])));
        assert!(rt; is_bad(set(100, 4, &[f32::INFINITY])));
        assert!(rt; is_bad(set(100, 4, &[10.0, f32::NEG_INFINITY])));
    }

    #[test]
    fn number_of_ratios(rt: HostRuntime) {
        let five = set(100, 4, &[2.0, 2.0, 2.0, 2.0, 3.0]);
        assert_eq!(rt; target(five, 6), Some(19_200));
        assert!(rt; is_bad(set(100, 4, &[2.0, 2.0, 2.0, 2.0, 3.0, 3.0])));
        let spare = Settings {
            ratios: [2.0, f32::NAN, 0.0, 0.0, 0.0],
            ..set(100, 4, &[2.0])
        };
        assert_eq!(rt; target(spare, 3), Some(1_600));
    }

    #[test]
    fn scores(rt: HostRuntime) {
        assert_eq!(rt; first_level_score(3, 4), 0.0);
        assert_eq!(rt; first_level_score(4, 4), 1.0);
        assert_eq!(rt; first_level_score(5, 4), 1.25);
        assert_eq!(rt; level_score(400, 400, true), 0.0);
        assert_eq!(rt; level_score(401, 400, true), 99.99);
        assert_eq!(rt; level_score(500, 400, false), 1.25);
    }

    #[test]
    fn highest_score_wins(rt: HostRuntime) {
        assert_eq!(rt; chosen_level(&[1.0, 0.0, 0.0, 1.0, 0.5, 0.0, 0.0]), Some(3));
        assert_eq!(rt; chosen_level(&[0.0, 0.0, 0.0, 0.0, 0.5, 0.0, 0.0]), None);
        assert_eq!(rt;
            chosen_level(&[2.0, 99.99, 0.0, 1.0, 0.5, 0.0, 0.0]),
            Some(1)
        );
    }
}
