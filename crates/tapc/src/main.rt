//! The program: files, standard output, a UDP socket, the machine's clock, and the words after its name.
#![tactic(auto)]

mod bound;
mod files;
mod machine_clock;
mod output;
mod udp_link;
mod words;

use files::Files;
use machine_clock::MachineClock;
use output::Output;
use std::process::ExitCode;
use tapc_core::{Status, close, run};
use udp_link::UdpLink;
use words::{WordsFault, words};

fn main(rt: HostRuntime) -> ExitCode {
    let alloc = rt.alloc();
    let mut store = Files::new(rt);
    let mut out = Output::new(rt);
    let mut link = UdpLink::new(rt);
    let mut clock = MachineClock::new(rt);
    let status = match words(&rt, alloc) {
        Ok(words) => run(
            alloc,
            words.as_slice(),
            &mut store,
            &mut out,
            &mut link,
            &mut clock,
        ),
        // Words that are no text are the words of no command.
        Err(WordsFault::NotText) => run(alloc, &[], &mut store, &mut out, &mut link, &mut clock),
        Err(WordsFault::NoMemory) => close(b"no memory\n", &mut out, Status::NoMemory),
    };
    ExitCode::from(status.number())
}
