//! The numbers of the statuses.

use tapc_core::Status;

#[test]
fn each_status_has_its_number(rt: HostRuntime) {
    for (status, number) in [
        (Status::Done, 0),
        (Status::Refused, 1),
        (Status::Usage, 2),
        (Status::BadSchedule, 3),
        (Status::ReadFault, 4),
        (Status::WriteFault, 5),
        (Status::LinkFault, 6),
        (Status::NoMemory, 7),
        (Status::NotARun, 8),
        (Status::WorldFull, 9),
    ] {
        assert_eq!(rt; status.number(), number, "{status:?}");
    }
}
