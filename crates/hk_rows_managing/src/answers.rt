//! When a manager may wish, by when a majority of the managers answers it.

use hk_managing::Answers;

const LEASE: u32 = 400;

const BEAT: u64 = 25;

// A manager that a majority answers for long, and that was cut off from it at this reading.
fn cut_off_at(now: u64) -> Answers {
    Answers::Silent {
        since: Some(now),
        not_before: 0,
    }
}

#[test]
fn a_manager_that_began_wishes_behind_a_second_and_four_beats(rt: HostRuntime) {
    let mut answers = Answers::none();
    answers.hear(LEASE, BEAT, 3_000, false);
    assert_eq!(rt; answers, Answers::none());
    answers.hear(LEASE, BEAT, 3_025, true);
    assert_eq!(rt; answers, Answers::Answering { wishes_from: 4_125 });
    assert_eq!(rt;
        (answers.may_wish(4_124), answers.may_wish(4_125)),
        (false, true)
    );
}

#[test]
fn one_that_was_cut_off_waits_for_as_long_as_that_lasted(rt: HostRuntime) {
    let mut shortly = cut_off_at(9_000);
    shortly.hear(LEASE, BEAT, 9_250, true);
    assert_eq!(rt; shortly, Answers::Answering { wishes_from: 9_600 });
    let mut long = cut_off_at(9_000);
    long.hear(LEASE, BEAT, 19_000, true);
    assert_eq!(rt;
        long,
        Answers::Answering {
            wishes_from: 20_100
        }
    );
}

#[test]
fn a_short_silence_cuts_no_wait_short(rt: HostRuntime) {
    let mut answers = Answers::none();
    answers.hear(LEASE, BEAT, 1_000, true);
    answers.hear(LEASE, BEAT, 1_300, false);
    let silent = Answers::Silent {
        since: Some(1_100),
        not_before: 2_100,
    };
    assert_eq!(rt; answers, silent);
    assert_eq!(rt; answers.may_wish(5_000), false);
    answers.hear(LEASE, BEAT, 1_325, true);
    assert_eq!(rt; answers, Answers::Answering { wishes_from: 2_100 });
}
