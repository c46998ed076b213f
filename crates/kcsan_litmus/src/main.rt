//! `kcsan_litmus`: the runtime of KCSAN, the Linux kernel's concurrency sanitizer, over C litmus
//! programs.
#![tactic(auto)]

use file_commands::failure::{OUT_OF_MEMORY, UNREADABLE, USAGE};
use litmus_command::command::command;
use std::process::ExitCode;
use system_desk::color::is_colored;
use system_desk::system::System;
use system_desk::words::{WordsFault, words};

fn main(rt: HostRuntime) -> ExitCode {
    let status = match words(&rt) {
        Ok(words) => {
            let mut system = System::new(rt, is_colored(&rt, &words));
            command(&rt, rt.alloc(), &words, &mut system)
        }
        Err(fault) => refuse(&rt, &fault),
    };
    ExitCode::from(status)
}

/// Says why the words can't be had, and answers the status: for want of memory, for bytes that are no text, or for a
/// list or a configuration that can't be read.
fn refuse(rt: &HostRuntime, fault: &WordsFault) -> u8 {
    match fault {
        WordsFault::OutOfMemory => {
            let _ = eprintln!(rt; "kcsan_litmus: out of memory");
            OUT_OF_MEMORY
        }
        WordsFault::NotText => {
            let _ = eprintln!(rt; "kcsan_litmus: a word of the command line is not UTF-8");
            USAGE
        }
        WordsFault::NoList(list) => {
            let _ = eprintln!(rt; "kcsan_litmus: cannot read\n{list}: no list of files");
            UNREADABLE
        }
        WordsFault::NoConfig(file) => {
            let _ = eprintln!(rt;
                "kcsan_litmus: cannot read\n{file}: no configuration of a kernel"
            );
            UNREADABLE
        }
    }
}
