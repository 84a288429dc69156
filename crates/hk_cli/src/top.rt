//! The top call.

ghost use Rattle.std.specs.Prelude.{◌≡◌, ◌⊎◌, ℕ, ◌≤◌, take, true, Some, None, IfSome};
ghost use Rattle.std.specs.Io.KnownBytes.{Appends};
ghost use Rattle.hk_outside.specs.Causes.{Rose, Stayed};
ghost use Rattle.hk_drill.specs.Drilled.{IsDone, IsExact, IsFront, IsStopped, HasTold};
ghost use Rattle.hk_safety.specs.Run.{AllLegal};
ghost use Rattle.hk_drill.specs.Together.{IsJointDone, IsJointFront, IsJointTold};
ghost use Rattle.hk_generate.specs.Generated.{generated, summary};
ghost use Rattle.hk_storm.specs.Stormed.{IsStormed};
ghost use Rattle.hk_group.specs.declared.group.Group.{Group as GroupOf};
ghost use Rattle.hk_group.specs.Jobs.{HasServedBeside, own_jobs};
ghost use Rattle.hk_process.specs.declared.process.Process.{Process as ProcessOf};
ghost use Rattle.hk_process.specs.Process.{process_jobs};
ghost use Rattle.hk_process.specs.Serving.{HasTakenBeside};
ghost use Rattle.hk_watching.specs.Watching.{watched_line};
ghost use Rattle.hk_joint_storm.specs.Concluded.{IsJointStorm};
ghost use Rattle.hk_storm.specs.declared.opts.StormOpts.{StormOpts};
ghost use Rattle.hk_cli.specs.declared.words.Command.{Command as CommandOf};
ghost use Rattle.hk_cli.specs.declared.words.Command.TheVariants.{Drill, Joint, Generate, Storm, Serve, Peer, Watch, JointStorm};
ghost use Rattle.hk_cli.specs.Words.{IsCommand};
ghost use Rattle.hk_cli.specs.Commands.{texts, IsNoCommand, usage_line, MayEnd, IsInRange};

use crate::words::{Command, read_command};
use hk_drill::{drill, joint};
use hk_generate::generate_run;
use hk_group::serve;
use hk_joint_storm::joint_storm;
use hk_outside::{Doors, Sink, Source, Spawner, Status, write_all};
use hk_process::serve_process;
use hk_storm::storm;
use hk_watching::watch_writes;
use hk_worker::DeskClock;
use std::alloc::Global;
use std::io::Eprint;
use std::sync::{Arc, Wait};
use std::thread::Threads;

// Writes the line that tells the commands.
fn tell_usage<K: Sink>(sink: &mut K) -> Status
    ensures told { result ≡ Status.Usage → Appends (K.held sink.old) (K.held sink.new) usage_line }
    ensures front { (n : ℕ) × Appends (K.held sink.old) (K.held sink.new) (take n usage_line) }
    ensures ends { (result ≡ Status.Usage) ⊎ (result ≡ Status.WriteFault) }
    ensures failed { result ≡ Status.WriteFault → Rose (K.faults sink.old) (K.faults sink.new) }
{
    match write_all(sink, b"usage: hermes drill | generate | storm | serve\n") {
        Ok(()) => Status::Usage,
        Err(_) => Status::WriteFault,
    }
}

// Does what a command says.
fn perform<
    R: Threads + Wait + Eprint + Copy + Send + Sync + 'static,
    S: Source,
    K: Sink,
    C: DeskClock + Send + Sync + Drop + 'static,
    D: Doors,
    P: Spawner,
>(
    rt: R,
    alloc: Global,
    command: Option<Command>,
    source: &mut S,
    sink: &mut K,
    clock: Arc<C>,
    doors: &mut D,
    spawner: &mut P,
) -> Status
    requires { IsInRange command }
    ensures usage { result ≡ Status.Usage → (command ≡ None) × (source.new ≡ source.old) × Appends (K.held sink.old) (K.held sink.new) usage_line }
    ensures no_command { command ≡ None → ((result ≡ Status.Usage) ⊎ (result ≡ Status.WriteFault)) × (source.new ≡ source.old) × ((n : ℕ) × Appends (K.held sink.old) (K.held sink.new) (take n usage_line)) }
    ensures statuses { IfSome command (λ c. MayEnd c result) }
    ensures done { command ≡ Some Drill → result ≡ Status.Done → IsDone Status.Done (S.left source.old) (S.left source.new) (S.given source.old) (S.given source.new) (K.held sink.old) (K.held sink.new) }
    ensures bad_line { command ≡ Some Drill → result ≡ Status.BadLine → IsStopped Status.BadLine (S.left source.old) (S.left source.new) (S.given source.old) (S.given source.new) (K.held sink.old) (K.held sink.new) }
    ensures too_long { command ≡ Some Drill → result ≡ Status.TooLong → IsStopped Status.TooLong (S.left source.old) (S.left source.new) (S.given source.old) (S.given source.new) (K.held sink.old) (K.held sink.new) }
    ensures front { command ≡ Some Drill → IsFront (S.left source.old) (S.left source.new) (S.given source.old) (S.given source.new) (K.held sink.old) (K.held sink.new) }
    ensures cut_off { command ≡ Some Drill → result ≡ Status.ReadFault → HasTold (S.left source.old) (S.left source.new) (S.given source.old) (S.given source.new) (K.held sink.old) (K.held sink.new) }
    ensures exact { command ≡ Some Drill → Stayed (S.faults source.old) (S.faults source.new) → Stayed (K.faults sink.old) (K.faults sink.new)
        → IsExact result (S.left source.old) (S.left source.new) (S.given source.old) (S.given source.new) }
    ensures joint_done { command ≡ Some Joint → result ≡ Status.Done → IsJointDone (S.left source.old) (S.left source.new) (S.given source.old) (S.given source.new) (K.held sink.old) (K.held sink.new) }
    ensures joint_bad_line { command ≡ Some Joint → result ≡ Status.BadLine → IsJointTold Status.BadLine (S.left source.old) (S.left source.new) (S.given source.old) (S.given source.new) (K.held sink.old) (K.held sink.new) }
    ensures joint_too_long { command ≡ Some Joint → result ≡ Status.TooLong → IsJointTold Status.TooLong (S.left source.old) (S.left source.new) (S.given source.old) (S.given source.new) (K.held sink.old) (K.held sink.new) }
    ensures joint_front { command ≡ Some Joint → IsJointFront (S.left source.old) (S.left source.new) (S.given source.old) (S.given source.new) (K.held sink.old) (K.held sink.new) }
    ensures joint_cut_off { command ≡ Some Joint → result ≡ Status.ReadFault → sink.new ≡ sink.old }
    ensures joint_exact { command ≡ Some Joint → Stayed (S.faults source.old) (S.faults source.new) → Stayed (K.faults sink.old) (K.faults sink.new)
        → IsExact result (S.left source.old) (S.left source.new) (S.given source.old) (S.given source.new) }
    ensures written { (start count nodes : ℕ) → command ≡ Some (Generate start count nodes) → result ≡ Status.Done
        → Appends (K.held sink.old) (K.held sink.new) (summary start count nodes) }
    ensures legal { (start count nodes : ℕ) → command ≡ Some (Generate start count nodes) → AllLegal (generated start count nodes).run }
    ensures part { (start count nodes : ℕ) → command ≡ Some (Generate start count nodes)
        → (source.new ≡ source.old) × ((n : ℕ) × Appends (K.held sink.old) (K.held sink.new) (take n (summary start count nodes))) }
    ensures stormed { (opts : StormOpts) → command ≡ Some (Storm opts) → (source.new ≡ source.old) × IsStormed result opts (K.held sink.old) (K.held sink.new) }
    ensures aside { (group : GroupOf) → command ≡ Some (Serve group) → (source.new ≡ source.old) × (sink.new ≡ sink.old) }
    ensures served { (group : GroupOf) → command ≡ Some (Serve group) → result ≡ Status.Done
        → HasServedBeside (own_jobs group) (D.left doors.old) (D.left doors.new) (P.taken spawner.old) (P.taken spawner.new) (P.faults spawner.old) (P.faults spawner.new) group.conns }
    ensures closed { (group : GroupOf) → command ≡ Some (Serve group) → result ≡ Status.Done → D.closed doors.new ≡ true }
    ensures met { (process : ProcessOf) → command ≡ Some (Peer process) → result ≡ Status.Done
        → HasTakenBeside (process_jobs process) (D.left doors.old) (D.left doors.new) (P.taken spawner.old) (P.taken spawner.new) (P.faults spawner.old) (P.faults spawner.new) process.conns }
    ensures met_closed { (process : ProcessOf) → command ≡ Some (Peer process) → result ≡ Status.Done → D.closed doors.new ≡ true }
    ensures met_aside { (process : ProcessOf) → command ≡ Some (Peer process) → (source.new ≡ source.old) × (sink.new ≡ sink.old) }
    ensures watched { (writes : ℕ) → command ≡ Some (Watch writes) → result ≡ Status.Done → Appends (K.held sink.old) (K.held sink.new) (watched_line writes) }
    ensures watching { (writes : ℕ) → command ≡ Some (Watch writes)
        → (source.new ≡ source.old) × ((n : ℕ) × Appends (K.held sink.old) (K.held sink.new) (take n (watched_line writes))) }
    ensures joint_stormed { (workers reads : ℕ) → command ≡ Some (JointStorm workers reads) → (source.new ≡ source.old) × IsJointStorm result workers reads (K.held sink.old) (K.held sink.new) }
    ensures read_fault { result ≡ Status.ReadFault → Rose (S.faults source.old) (S.faults source.new) }
    ensures write_fault { result ≡ Status.WriteFault → Rose (K.faults sink.old) (K.faults sink.new) }
    ensures door_fault { result ≡ Status.DoorFault → Rose (D.faults doors.old) (D.faults doors.new) }
    ensures spawn_fault { result ≡ Status.SpawnFault → Rose (P.faults spawner.old) (P.faults spawner.new) }
{
    match command {
        Some(Command::Drill) => drill(alloc, source, sink),
        Some(Command::Joint) => joint(alloc, source, sink),
        Some(
            Command::Generate {
                start,
                count,
                nodes,
            },
        ) => generate_run(alloc, start, count, nodes, sink),
        Some(Command::Storm(opts)) => storm(rt, alloc, &opts, &*clock, sink),
        Some(Command::Serve(group)) => serve(rt, alloc, clock, &group, doors, spawner),
        Some(Command::Peer(process)) => {
            serve_process(rt, alloc, clock, &process, doors, spawner)
        }
        Some(Command::Watch { writes }) => watch_writes(rt, alloc, writes, sink),
        Some(Command::JointStorm { workers, reads }) => {
            joint_storm(rt, alloc, workers, reads, &*clock, sink)
        }
        None => tell_usage(sink),
    }
}

/// Does what the words of a command say, and answers the status that the process ends with.
///
/// - `drill` reads a script to its end, or to the line at which it stops, and writes its transcript as it goes. A script is the header of
///   a group, and the events of its world: calls, letters that are taken, clocks, crashes, views, leases, copies, and what its managers do.
/// - `joint` reads a script in the same way. At its end it writes one order of the calls on all keys of the run, and which reads of several keys stand together in it.
/// - `generate --start S --count C --nodes N` makes a run of C events of N nodes that is drawn from the number S, and writes its summary.
///
/// - `storm --start S --nodes N --workers W --calls C` runs N nodes with W workers and W callers each on threads, which make C calls drawn from the number S and lose
///   letters, and writes whether what they did is a legal run of each shard number, and what became of the calls.
///
/// - `serve --nodes N --workers W --managers M --lease L --skew E --port P --conns C` opens port P of 127.0.0.1 and serves C connections of memcached clients at N
///   nodes in turn, each by a thread of its own. Each node has W workers; M managers give leases of L milliseconds, without managers leases are never over. It
///   reads no source and writes to no sink.
///
/// - `peer --id I --nodes N --workers W --port P --conns C` runs node I of N in this process, with W workers and without managers, and opens port P + I of 127.0.0.1. Of C
///   connections those whose first byte is 0 are peers', which bring what other nodes send; at any other a memcached client is served. What is for node J goes to port
///   P + J. It reads no source and writes to no sink.
///
/// - `watch --writes N` writes a key N times in one thread while a watch of it looks in another, and writes one line, which tells the last
///   stamp that the watch was told. It reads no source.
///
/// - `joint-storm --workers W --reads R` writes four keys of a shard in W threads, R times in each, while a reader reads all four together R times, and writes whether what it found stood
///   together at one moment of the shard's journal. It reads no source.
///
/// For all other words one line is written, which tells the commands, and the status is Usage. Only `serve` and `peer` touch the doors and the spawner.
pub fn hermes<
    R: Threads + Wait + Eprint + Copy + Send + Sync + 'static,
    S: Source,
    K: Sink,
    C: DeskClock + Send + Sync + Drop + 'static,
    D: Doors,
    P: Spawner,
>(
    rt: R,
    alloc: Global,
    words: &[String],
    source: &mut S,
    sink: &mut K,
    clock: Arc<C>,
    doors: &mut D,
    spawner: &mut P,
) -> Status
    // Usage comes exactly where the words are no command's, unless writing the line failed; nothing is read then.
    ensures usage { result ≡ Status.Usage → IsNoCommand (texts words.now) × (source.new ≡ source.old) × Appends (K.held sink.old) (K.held sink.new) usage_line }
    ensures no_command { IsNoCommand (texts words.now) → ((result ≡ Status.Usage) ⊎ (result ≡ Status.WriteFault)) × (source.new ≡ source.old) × ((n : ℕ) × Appends (K.held sink.old) (K.held sink.new) (take n usage_line)) }

    // Each command ends with its own statuses.
    ensures statuses { (command : CommandOf) → IsCommand command (texts words.now) → MayEnd command result }

    // A drill that is done has read its source to the end and written the transcript of what it read, and the order
    // that it printed for each key is legal for the history that it printed.
    ensures done { IsCommand Drill (texts words.now) → result ≡ Status.Done → IsDone Status.Done (S.left source.old) (S.left source.new) (S.given source.old) (S.given source.new) (K.held sink.old) (K.held sink.new) }

    // A read that failed leaves what the lines told whose feed was read, and no more.
    ensures cut_off { IsCommand Drill (texts words.now) → result ≡ Status.ReadFault → HasTold (S.left source.old) (S.left source.new) (S.given source.old) (S.given source.new) (K.held sink.old) (K.held sink.new) }

    // What a drill read that met a line outside the grammar decides the transcript, whatever would follow. It has written what
    // the events before that line showed, and the stop line that names it.
    ensures bad_line { IsCommand Drill (texts words.now) → result ≡ Status.BadLine → IsStopped Status.BadLine (S.left source.old) (S.left source.new) (S.given source.old) (S.given source.new) (K.held sink.old) (K.held sink.new) }

    // So has one that met a line that passes a limit: too long, too many, or with an event that would send too many letters.
    ensures too_long { IsCommand Drill (texts words.now) → result ≡ Status.TooLong → IsStopped Status.TooLong (S.left source.old) (S.left source.new) (S.given source.old) (S.given source.new) (K.held sink.old) (K.held sink.new) }

    // Whatever the answer, what a drill wrote is a front of the transcript, whatever may still come behind what was read.
    ensures front { IsCommand Drill (texts words.now) → IsFront (S.left source.old) (S.left source.new) (S.given source.old) (S.given source.new) (K.held sink.old) (K.held sink.new) }

    // Where no count of faults rose, a drill ends as the transcript says, unless memory ran out.
    ensures exact { IsCommand Drill (texts words.now) → Stayed (S.faults source.old) (S.faults source.new) → Stayed (K.faults sink.old) (K.faults sink.new)
        → IsExact result (S.left source.old) (S.left source.new) (S.given source.old) (S.given source.new) }

    // A joint order that is done has read its source to the end, and written one order of the calls on all keys, which is legal, and the batches of reads.
    ensures joint_done { IsCommand Joint (texts words.now) → result ≡ Status.Done → IsJointDone (S.left source.old) (S.left source.new) (S.given source.old) (S.given source.new) (K.held sink.old) (K.held sink.new) }

    // Its statuses are the drill's: at a line at which the script stops it has written that line alone, whatever would follow, and nothing where a read
    // failed. Whatever the answer, what it wrote is a front of its text.
    ensures joint_bad_line { IsCommand Joint (texts words.now) → result ≡ Status.BadLine → IsJointTold Status.BadLine (S.left source.old) (S.left source.new) (S.given source.old) (S.given source.new) (K.held sink.old) (K.held sink.new) }
    ensures joint_too_long { IsCommand Joint (texts words.now) → result ≡ Status.TooLong → IsJointTold Status.TooLong (S.left source.old) (S.left source.new) (S.given source.old) (S.given source.new) (K.held sink.old) (K.held sink.new) }
    ensures joint_cut_off { IsCommand Joint (texts words.now) → result ≡ Status.ReadFault → sink.new ≡ sink.old }
    ensures joint_front { IsCommand Joint (texts words.now) → IsJointFront (S.left source.old) (S.left source.new) (S.given source.old) (S.given source.new) (K.held sink.old) (K.held sink.new) }
    ensures joint_exact { IsCommand Joint (texts words.now) → Stayed (S.faults source.old) (S.faults source.new) → Stayed (K.faults sink.old) (K.faults sink.new)
        → IsExact result (S.left source.old) (S.left source.new) (S.given source.old) (S.given source.new) }

    // A run that was generated is told by its summary, and the order of each key is legal.
    ensures written { (start count nodes : ℕ) → IsCommand (Generate start count nodes) (texts words.now) → result ≡ Status.Done
        → Appends (K.held sink.old) (K.held sink.new) (summary start count nodes) }
    ensures legal { (start count nodes : ℕ) → IsCommand (Generate start count nodes) (texts words.now) → AllLegal (generated start count nodes).run }

    // Whatever the answer, what was written is a front of the summary, and nothing was read.
    ensures part { (start count nodes : ℕ) → IsCommand (Generate start count nodes) (texts words.now)
        → (source.new ≡ source.old) × ((n : ℕ) × Appends (K.held sink.old) (K.held sink.new) (take n (summary start count nodes))) }

    // A storm tells what the journals and notes of some groups come to: Done, where they are runs of just the drawn calls, each key's order of which is legal; Gap, where
    // they are not. Nothing is read.
    ensures stormed { (opts : StormOpts) → IsCommand (Storm opts) (texts words.now) → (source.new ≡ source.old) × IsStormed result opts (K.held sink.old) (K.held sink.new) }

    // A server that is done took the stated number of connections, or all that were left, and for each its spawner took a job, or counts one fault more; before that it
    // took one for each worker and each manager's loop. Its port is closed then. It reads and writes nothing else.
    ensures served { (group : GroupOf) → IsCommand (Serve group) (texts words.now) → result ≡ Status.Done
        → HasServedBeside (own_jobs group) (D.left doors.old) (D.left doors.new) (P.taken spawner.old) (P.taken spawner.new) (P.faults spawner.old) (P.faults spawner.new) group.conns }
    ensures closed { (group : GroupOf) → IsCommand (Serve group) (texts words.now) → result ≡ Status.Done → D.closed doors.new ≡ true }
    ensures aside { (group : GroupOf) → IsCommand (Serve group) (texts words.now) → (source.new ≡ source.old) × (sink.new ≡ sink.old) }

    // A process that is done, with one node of a group, took at least the stated number of connections, since peers come again: for each its spawner took a job, or counts
    // one fault more, and before that one for each worker and each loop that sends. That other nodes can't be reached is no fault.
    ensures met { (process : ProcessOf) → IsCommand (Peer process) (texts words.now) → result ≡ Status.Done
        → HasTakenBeside (process_jobs process) (D.left doors.old) (D.left doors.new) (P.taken spawner.old) (P.taken spawner.new) (P.faults spawner.old) (P.faults spawner.new) process.conns }
    ensures met_closed { (process : ProcessOf) → IsCommand (Peer process) (texts words.now) → result ≡ Status.Done → D.closed doors.new ≡ true }
    ensures met_aside { (process : ProcessOf) → IsCommand (Peer process) (texts words.now) → (source.new ≡ source.old) × (sink.new ≡ sink.old) }

    // A watch that is done wrote its line, which is a function of the words. Whatever the answer, what was written is a front of that line, and
    // nothing was read.
    ensures watched { (writes : ℕ) → IsCommand (Watch writes) (texts words.now) → result ≡ Status.Done → Appends (K.held sink.old) (K.held sink.new) (watched_line writes) }
    ensures watching { (writes : ℕ) → IsCommand (Watch writes) (texts words.now)
        → (source.new ≡ source.old) × ((n : ℕ) × Appends (K.held sink.old) (K.held sink.new) (take n (watched_line writes))) }

    // A storm of joint reads tells what some reads come to by the journal of some shard: Done, where each of them stood together at one moment; Gap, where one did not. Nothing is read.
    ensures joint_stormed { (workers reads : ℕ) → IsCommand (JointStorm workers reads) (texts words.now) → (source.new ≡ source.old) × IsJointStorm result workers reads (K.held sink.old) (K.held sink.new) }

    // A fault is the outside's.
    ensures read_fault { result ≡ Status.ReadFault → Rose (S.faults source.old) (S.faults source.new) }
    ensures write_fault { result ≡ Status.WriteFault → Rose (K.faults sink.old) (K.faults sink.new) }
    ensures door_fault { result ≡ Status.DoorFault → Rose (D.faults doors.old) (D.faults doors.new) }
    ensures spawn_fault { result ≡ Status.SpawnFault → Rose (P.faults spawner.old) (P.faults spawner.new) }
{
    perform(
        rt,
        alloc,
        read_command(words),
        source,
        sink,
        clock,
        doors,
        spawner,
    )
}
