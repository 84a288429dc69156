//! When somebody is tried again.

use hk_channel::Retry;

#[test]
fn pauses_double_up_to_a_second(rt: HostRuntime) {
    let mut retry = Retry::new(62);
    assert!(rt; retry.is_due(0));
    // tried at, the last reading of the pause, and when it is over
    let rows = [
        (0, 61, 62),
        (62, 185, 186),
        (186, 433, 434),
        (434, 929, 930),
        (930, 1_921, 1_922),
        (1_922, 2_921, 2_922),
        (2_922, 3_921, 3_922),
    ];
    for (at, last, over) in rows {
        retry.failed(at);
        assert!(rt; !retry.is_due(last), "{at}");
        assert!(rt; retry.is_due(over), "{at}");
    }
    retry.went_well();
    assert!(rt; retry.is_due(0));
    retry.failed(5_000);
    assert!(rt; !retry.is_due(5_061));
    assert!(rt; retry.is_due(5_062));
}

#[test]
fn no_pause_is_above_a_second(rt: HostRuntime) {
    let mut retry = Retry::new(3_750);
    retry.failed(5);
    assert!(rt; !retry.is_due(1_004));
    assert!(rt; retry.is_due(1_005));
}
