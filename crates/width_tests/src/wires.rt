//! The wire of a system: its messages, and who receives which of them from whom.

ghost use Rattle.std.specs.Prelude.{◌<◌, ◌^◌, IfOk, length};

use std::alloc::Global;
use std::test::Fail;
use tap_base::{Receive, System, WireField, receives_of, wire_of};
use tap_front::tree_of;
use tap_types::resolve;

const TEXT: &str = "message m begin f : 8 bits = 3; g : 16 bits end
message n begin h : 63 bits end
process a begin true -> send m(1) to b [] rcv n from b -> skip [] rcv n from c -> skip end
process b begin rcv m from a -> skip [] true -> send n(0) to a end
process c begin true -> send n(1) to a end
";

fn system(alloc: Global) -> Result<System, Fail>
    ensures { IfOk result (λ found. length found.processes < 2 ^ 32) }
{
    let Ok(tree) = tree_of(alloc, TEXT.as_bytes()) else {
        return Err("the text is no tree".into());
    };
    let Ok(system) = resolve(alloc, &tree) else {
        return Err("the tree names no system".into());
    };
    Ok(system)
}

fn receive(by: u32, from: u32, message: u32) -> Receive {
    Receive { by, from, message }
}

#[test]
fn a_wire_has_all_messages_and_receives(rt: HostRuntime) -> Result<(), Fail> {
    let system = system(rt.alloc())?;
    let wire = wire_of(rt.alloc(), &system)?;
    assert!(rt; wire.processes == 3, "{} processes", wire.processes);
    assert!(rt;
        wire.messages.len() == 2,
        "{} messages",
        wire.messages.len()
    );
    let fields = [
        WireField {
            width: 8,
            fixed: Some(3),
        },
        WireField {
            width: 16,
            fixed: None,
        },
    ];
    let receives = [receive(0, 1, 1), receive(0, 2, 1), receive(1, 0, 0)];
    let first = wire.messages.as_slice()[0].as_slice();
    assert!(rt; first == fields.as_slice(), "{first:?}");
    let found = wire.receives.as_slice();
    assert!(rt; found == receives.as_slice(), "{found:?}");
    let alone = receives_of(rt.alloc(), system.processes.as_slice())?;
    assert!(rt; alone.as_slice() == receives.as_slice(), "{alone:?}");
    Ok(())
}
