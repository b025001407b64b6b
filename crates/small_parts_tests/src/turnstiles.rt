//! The choice among actions.

use guard_scheduler::Turnstile;

/// Turns of three actions that are all enabled, and then turns at which some are not.
#[test]
fn goes_round(rt: HostRuntime) {
    let rows = [
        ("begins at the first", [true, true, true], Some(0)),
        ("goes on", [true, true, true], Some(1)),
        ("takes the last", [true, true, true], Some(2)),
        ("goes round", [true, true, true], Some(0)),
        (
            "goes past those that are not enabled",
            [true, false, false],
            Some(0),
        ),
        ("picks none of none", [false, false, false], None),
        ("stays where it picked none", [true, false, true], Some(2)),
        ("stands at 0 after the last", [true, false, true], Some(0)),
    ];
    let mut turnstile = Turnstile::new(3);
    for (name, enabled, picked) in rows {
        assert_eq!(rt; turnstile.pick(&enabled), picked, "{name}");
    }
}

#[test]
fn no_action_is_picked_of_none(rt: HostRuntime) {
    assert_eq!(rt; Turnstile::new(0).pick(&[]), None);
}
