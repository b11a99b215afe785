//! Reserves of blocks and meters of steps, after each call.
use cfdp_quota::*;

// Whether this many blocks are free, and this many of these are kept for nobody.
fn has(quota: &Quota, free: u32, spare: u32) -> bool {
    quota.free() == free && quota.spare() == spare
}

#[test]
fn a_live_transaction_keeps_what_it_gave_back(rt: HostRuntime) {
    let mut quota = Quota::new(16);
    quota.reserve(0, 13);
    assert!(rt; quota.is_open(0), "the first one is open");
    quota.took(0, 13);
    quota.close(0);
    assert!(rt; has(&quota, 3, 3), "the first one took 13, and is closed");
    quota.reserve(1, 0);
    quota.gave(1, 6);
    assert!(rt;
        has(&quota, 9, 3) && quota.reserve_of(1) == 6,
        "the second one gave 6 back"
    );
    quota.took(1, 5);
    assert!(rt;
        has(&quota, 4, 3) && quota.reserve_of(1) == 1,
        "the second one took 5 of them"
    );
    quota.close(1);
    assert!(rt;
        quota.spare() == 4 && !quota.is_open(1),
        "the second one is closed"
    );
}

#[test]
fn a_meter_runs_down(rt: HostRuntime) {
    let mut meter = Meter::new(4);
    meter.spend(3);
    assert!(rt; meter.left() == 1, "3 of 4 are spent");
    meter.spend(1);
    assert!(rt; meter.left() == 0 && meter.spent() == 4, "all are spent");
}
