//! A manager that stood still itself.

ghost use Rattle.std.specs.Prelude.{◌≤◌};
ghost use Rattle.hk_base.specs.declared.time.TheConstants.{MAX_TIME};

use hk_managing::Looks;

const LEASE: u32 = 400;

// A manager that looked at this reading, and before that at one that is four leases back.
fn looked_late_at(now: u64) -> Looks
    requires { now ≤ MAX_TIME }
{
    let mut looks = Looks {
        last: now.saturating_sub(1_600),
        rests_until: 0,
    };
    looks.look(now, LEASE);
    looks
}

#[test]
fn a_late_look_is_followed_by_a_rest(rt: HostRuntime) {
    let looks = looked_late_at(10_000);
    let wanted = Looks {
        last: 10_000,
        rests_until: 10_100,
    };
    assert_eq!(rt; looks, wanted);
    assert_eq!(rt; (looks.rests(10_099), looks.rests(10_100)), (true, false));
}

#[test]
fn looks_at_each_beat_never_rest(rt: HostRuntime) {
    let mut looks = Looks {
        last: 10_000,
        rests_until: 0,
    };
    for beat in 1..100 {
        looks.look(10_000 + 25 * beat, LEASE);
        assert_eq!(rt; looks.rests(10_000 + 25 * beat), false);
    }
    looks.look(12_475 + 99, LEASE);
    assert_eq!(rt; looks.rests_until, 0);
    looks.look(12_574 + 100, LEASE);
    assert_eq!(rt; looks.rests_until, 12_774);
}

#[test]
fn who_stands_still_again_and_again_goes_by_what_it_hears(rt: HostRuntime) {
    let mut looks = looked_late_at(10_000);
    looks.look(10_300, LEASE);
    assert_eq!(rt; looks.rests_until, 10_100);
    looks.look(10_899, LEASE);
    assert_eq!(rt; looks.rests_until, 10_100);
    looks.look(11_000, LEASE);
    assert_eq!(rt; looks.rests_until, 11_100);
}
