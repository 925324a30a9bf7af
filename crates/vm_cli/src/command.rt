//! The commands: of each the function that does it, up to what goes out.

ghost use Rattle.std.specs.Prelude.{◌≡◌, ◌≤◌};
ghost use Rattle.vm_file_serve.specs.from_vm_endings.Deliveries.{content_of};
ghost use Rattle.vm_file_serve.specs.from_vm_endings.Endings.{AnswersCommand, ChangesDevices, HasUnreadCause, LeavesDevices, UnreadCause};
ghost use Rattle.vm_file_serve.specs.from_vm_endings.Outside.{outside_of, remains_of};

use std::alloc::Global;
use std::sync::Wait;
use std::thread::Threads;
use vm_device::Devices;
use vm_file_serve::drive::Gate;
use vm_file_serve::endings::{Delivery, Ends, Stop, Undone};
use vm_file_serve::serve::run_serve;
use vm_files::check::run_check;
use vm_files::make::run_make;
use vm_files::make_bytes::run_make_bytes;
use vm_files::migrate::run_migrate;
use vm_files::replay::run_replay;
use vm_io::host::Host;
use vm_page::WORDS;
use vm_runs::churn::run_churn;
use vm_runs::script::run_script;
use vm_words::Command;

/// Does what the command asks for, and gives what is to go out, or why it stopped.
pub fn give<'a, R: Threads + Wait + Sync, H: Host, G: Gate + Sync, D: Devices<WORDS>>(
    rt: &R,
    alloc: Global,
    host: &mut H,
    command: &Command<'a>,
    gate: &G,
    ends: &mut Ends,
    devices: &mut D,
) -> Result<Delivery<'a>, Undone<Stop<'a>>>
    ensures gives { AnswersCommand content_of command.now (outside_of (H.shown host.old) D.tells (D.state devices.old)) (remains_of (H.last host.new) (D.state devices.new)) ends.old ends.new result }
    ensures shown { H.shown host.new ≡ H.shown host.old }
    ensures puts { H.gives host.new ≡ H.gives host.old }
    ensures later { H.takes host.old ≤ H.takes host.new }
    ensures cause { HasUnreadCause
        (UnreadCause command.now (H.takes host.old) (H.takes host.new) (outside_of (H.shown host.old) D.tells (D.state devices.old))
        (remains_of (H.last host.new) (D.state devices.new))) result }
    ensures home { LeavesDevices (outside_of (H.shown host.old) D.tells (D.state devices.old)) (remains_of (H.last host.new) (D.state devices.new)) result }
    ensures devices { ChangesDevices command.now (outside_of (H.shown host.old) D.tells (D.state devices.old)) (remains_of (H.last host.new) (D.state devices.new)) }
{
    match command {
        Command::Run(run) => run_script(rt, alloc, host, run, gate, ends),
        Command::Make(make) => run_make(alloc, make),
        Command::Check(check) => run_check(alloc, host, check),
        Command::Churn(churn) => run_churn(rt, alloc, churn, gate, ends),
        Command::Replay(replay) => run_replay(alloc, host, replay),
        Command::Migrate(migrate) => run_migrate(alloc, host, migrate),
        Command::Serve(serve) => run_serve(rt, alloc, host, serve, gate, ends, devices),
        Command::MakeBytes(make) => run_make_bytes(alloc, make),
    }
}
