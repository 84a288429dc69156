//! The commands.

ghost use Rattle.std.specs.Prelude.{◌≡◌, ◌≤◌, ◌==◌, ◌||◌, if◌then◌else◌, List, [], ◌∷◌, length, Ok, Err};
ghost use Rattle.hk_outside.specs.Causes.{Rose};
ghost use Rattle.hk_inside.specs.Messages.{IsInquiryInRange};
ghost use Rattle.hk_inside.specs.declared.inquiry.Inquiry.TheVariants.{Status as StatusOf};
ghost use Rattle.hk_init.specs.Deeds.{Did, Asked};
ghost use Rattle.hk_init.specs.Phases.{Founds, Opens};
ghost use Rattle.hk_init.specs.Leaving.{NodeLeaves, TellsLeft, LeavesBy};
ghost use Rattle.hk_init.specs.Init.{Then, IsAgreed, IsFounding, Writes, Inits, status_in, status_of, FirstAnswers, tells_lost, without_lost, knows_none, count_of, denies_lost, is_confirmed, Confirms, ShowsLost, Shows, TellsOf, TellsStatus};

use crate::asking::AskHost;
use crate::fault::{CommandFault, NoAnswer};
use crate::founds::found_all;
use crate::leaves::leave_all;
use crate::lines::{founded_line, left_line, open_words};
use crate::looks::{agreed, look_at_all};
use crate::lookup::{named, word_at};
use crate::opens::await_all;
use hk_base::{NodeId, Sequence};
use hk_inside::{Inquiry, Leaver, ManagerState, Response};
use hk_outside::{Sink, write_all};
use std::alloc::Global;

// FOUND, and then STATUS until all are open.
fn found<A: AskHost>(
    asker: &mut A,
    words: &[u8],
    count: usize,
    began: u64,
    inquiry: &Inquiry,
) -> Result<(), CommandFault>
    requires { IsInquiryInRange inquiry.now }
    ensures { Did (A.deeds asker.old) (A.deeds asker.new) (λ deeds. Then (Founds began count inquiry.now) (λ _. Opens words.now count) deeds result) }
{
    found_all(asker, count, began, inquiry)?;
    await_all(asker, count, words)
}

// FOUND with the tickets that all have told, where they agree.
fn found_with<A: AskHost>(
    alloc: Global,
    asker: &mut A,
    words: &[u8],
    founding: u64,
    began: u64,
    states: &[ManagerState],
) -> Result<(), CommandFault>
    requires founding { 1 ≤ founding }
    requires some { 1 ≤ length states.now }
    requires few { length states.now ≤ 9 }
    ensures { Did (A.deeds asker.old) (A.deeds asker.new) (λ deeds. IsAgreed words.now (length states.now) founding began states.now deeds result) }
{
    let hosts = agreed(alloc, states)?;
    let inquiry = Inquiry::Found { founding, hosts };
    found(asker, words, states.len(), began, &inquiry)
}

// Founds the group, and waits until all managers tell these words.
fn found_group<A: AskHost>(
    alloc: Global,
    asker: &mut A,
    words: &[u8],
    count: usize,
    founding: u64,
) -> Result<(), CommandFault>
    requires founding { 1 ≤ founding }
    requires some { 1 ≤ count }
    requires few { count ≤ 9 }
    ensures { Did (A.deeds asker.old) (A.deeds asker.new) (λ deeds. IsFounding words.now count founding deeds result) }
{
    let began = asker.read_clock();
    let states = look_at_all(alloc, asker, count, founding)?;
    found_with(alloc, asker, words, founding, began, states.as_slice())
}

fn write<K: Sink>(sink: &mut K, text: &[u8]) -> Result<(), CommandFault>
    ensures written { Writes (Ok text.now) (K.held sink.old) (K.held sink.new) result }
    ensures failed { result ≡ Err CommandFault.WriteFault → Rose (K.faults sink.old) (K.faults sink.new) }
{
    match write_all(sink, text) {
        Ok(()) => Ok(()),
        Err(_) => Err(CommandFault::WriteFault),
    }
}

/// Founds a group of so many hosts, 1 to 9, with a founding that is not 0 and that nobody else draws, and writes
/// `founded` and that founding once all of its managers are open. Where it ends before, the command may be given again,
/// with another founding: what it left does no harm.
pub fn init<A: AskHost, K: Sink>(
    alloc: Global,
    asker: &mut A,
    group: &[u8],
    count: usize,
    founding: u64,
    sink: &mut K,
) -> Result<(), CommandFault>
    requires founding { 1 ≤ founding }
    requires some { 1 ≤ count }
    requires few { count ≤ 9 }
    ensures does { Did (A.deeds asker.old) (A.deeds asker.new) (λ deeds. Inits group.now count founding deeds (K.held sink.old) (K.held sink.new) result) }
    ensures failed { result ≡ Err CommandFault.WriteFault → Rose (K.faults sink.old) (K.faults sink.new) }
{
    let Ok(words) = open_words(alloc, group, founding) else {
        return Err(CommandFault::Memory);
    };
    let Ok(line) = founded_line(alloc, founding) else {
        return Err(CommandFault::Memory);
    };
    found_group(alloc, asker, &words, count, founding)?;
    write(sink, &line)
}

// The last line of a text that tells that all is lost, and the end of the line before it.
const LOST_LINE: &[u8] = b"\nlost\n";

// The length of the last line alone.
const LOST_LEN: usize = 5;

// The text of an answer to STATUS.
fn status_in(response: Response) -> Result<Sequence<u8>, NoAnswer>
    ensures { result ≡ status_in response }
{
    match response {
        Response::Status(text) => Ok(text),
        Response::Yes => Err(NoAnswer::Silent),
        Response::No { code: _, text: _ } => Err(NoAnswer::Silent),
        Response::State(_) => Err(NoAnswer::Silent),
        Response::Board(_) => Err(NoAnswer::Silent),
        Response::Seated(_) => Err(NoAnswer::Silent),
    }
}

fn ask_status<A: AskHost>(asker: &mut A, place: usize) -> Result<Sequence<u8>, NoAnswer>
    ensures { Asked (A.deeds asker.old) (A.deeds asker.new) place StatusOf (λ outcome. result ≡ status_of outcome) }
{
    status_in(asker.ask(place, &Inquiry::Status)?)
}

// Of two faults that of host 0, where the second is that of the host of this place.
fn earlier(place: usize, first: NoAnswer, fault: NoAnswer) -> NoAnswer
    ensures { result ≡ (if place == 0 then fault else first) }
{
    if place == 0 { fault } else { first }
}

// What the first host tells that answers.
fn first_status<A: AskHost>(asker: &mut A, count: usize) -> Result<Sequence<u8>, CommandFault>
    ensures { Did (A.deeds asker.old) (A.deeds asker.new) (λ deeds. FirstAnswers count deeds result) }
{
    let mut first = NoAnswer::Silent;
    for place in 0..count {
        match ask_status(asker, place) {
            Ok(text) => return Ok(text),
            Err(fault) => first = earlier(place, first, fault),
        }
    }
    Err(CommandFault::of_ask(0, first))
}

// Whether a text tells that all is lost: that is its last line.
fn tells_lost(text: &[u8]) -> bool
    ensures { result ≡ tells_lost text.now }
{
    text.ends_with(LOST_LINE)
}

// The text without its last line, if that tells that all is lost.
fn without_lost(text: Sequence<u8>) -> Sequence<u8>
    ensures { result ≡ without_lost text }
{
    let mut text = text.into_vec();
    text.truncate(text.len().saturating_sub(LOST_LEN));
    Sequence::from_vec(text)
}

// Whether the manager of the host that tells this knows of no group, as where its disk was lost.
fn knows_none(text: &[u8]) -> bool
    ensures { result ≡ knows_none text.now }
{
    match word_at(text, 2) {
        Some(word) => word == b"founding=-".as_slice(),
        None => false,
    }
}

// How many hosts answer whose managers know of the group, of one.
fn count_of(told: &Result<Sequence<u8>, NoAnswer>) -> usize
    ensures exact { result ≡ count_of told.now }
    ensures few { result ≤ 1 }
{
    match told {
        Ok(text) => usize::from(!knows_none(text.as_slice())),
        Err(_) => 0,
    }
}

// Whether such a host answers, and does not tell that all is lost.
fn denies_lost(told: &Result<Sequence<u8>, NoAnswer>) -> bool
    ensures { result ≡ denies_lost told.now }
{
    match told {
        Ok(text) => !knows_none(text.as_slice()) && !tells_lost(text.as_slice()),
        Err(_) => false,
    }
}

fn one_of(one: bool, other: bool) -> bool
    ensures { result ≡ (one || other) }
{
    one || other
}

fn is_confirmed(count: usize, answered: usize, denied: bool) -> bool
    ensures { result ≡ is_confirmed count answered denied }
{
    !denied && count / 2 < answered
}

// Asks all hosts, and tells whether a majority of them answers that knows of the group, and all of these tell that all is lost.
fn confirm_lost<A: AskHost>(asker: &mut A, count: usize) -> bool
    ensures { Did (A.deeds asker.old) (A.deeds asker.new) (λ deeds. Confirms count deeds result) }
{
    let mut answered = 0;
    let mut denied = false;
    for place in 0..count {
        let told = ask_status(asker, place);
        answered += count_of(&told);
        denied = one_of(denied, denies_lost(&told));
    }
    is_confirmed(count, answered, denied)
}

// What is told of a group of which the first host that answers tells that all is lost.
fn shown_lost<A: AskHost>(asker: &mut A, count: usize, text: Sequence<u8>) -> Sequence<u8>
    ensures { Did (A.deeds asker.old) (A.deeds asker.new) (λ deeds. ShowsLost count text deeds result) }
{
    if confirm_lost(asker, count) {
        text
    } else {
        without_lost(text)
    }
}

// What is told of a group of which the first host that answers tells this.
fn shown<A: AskHost>(asker: &mut A, count: usize, text: Sequence<u8>) -> Sequence<u8>
    ensures { Did (A.deeds asker.old) (A.deeds asker.new) (λ deeds. Shows count text deeds result) }
{
    if tells_lost(text.as_slice()) {
        shown_lost(asker, count, text)
    } else {
        text
    }
}

fn group_status<A: AskHost>(asker: &mut A, count: usize) -> Result<Sequence<u8>, CommandFault>
    ensures { Did (A.deeds asker.old) (A.deeds asker.new) (λ deeds. TellsOf count deeds result) }
{
    let text = first_status(asker, count)?;
    Ok(shown(asker, count, text))
}

/// Writes how a group of so many hosts stands, as the first of them tells that answers. That all is lost is written only where
/// a majority of them answers that knows of the group, and all of these tell it: a host whose disk was lost counts as one that
/// does not answer.
pub fn status<A: AskHost, K: Sink>(
    asker: &mut A,
    count: usize,
    sink: &mut K,
) -> Result<(), CommandFault>
    ensures does { Did (A.deeds asker.old) (A.deeds asker.new) (λ deeds. TellsStatus count deeds (K.held sink.old) (K.held sink.new) result) }
    ensures failed { result ≡ Err CommandFault.WriteFault → Rose (K.faults sink.old) (K.faults sink.new) }
{
    let text = group_status(asker, count)?;
    write(sink, text.as_slice())
}

// Has the node of a number leave, and gives the line that tells so.
fn leave_node<A: AskHost>(
    alloc: Global,
    asker: &mut A,
    count: usize,
    node: NodeId,
) -> Result<Sequence<u8>, CommandFault>
    ensures { Did (A.deeds asker.old) (A.deeds asker.new) (λ deeds. NodeLeaves count node deeds result) }
{
    let Ok(line) = left_line(alloc, u64::from(node.0)) else {
        return Err(CommandFault::Memory);
    };
    let leave = Inquiry::Leave(Leaver::Node(node));
    leave_all(asker, count, &leave)?;
    Ok(Sequence::from_vec(line))
}

// Has a node leave, which is looked up first where it is named by its host, and gives the line that tells so.
fn left<A: AskHost>(
    alloc: Global,
    asker: &mut A,
    count: usize,
    who: Leaver,
) -> Result<Sequence<u8>, CommandFault>
    ensures { Did (A.deeds asker.old) (A.deeds asker.new) (λ deeds. TellsLeft who count deeds result) }
{
    let node = named(asker, count, who)?;
    leave_node(alloc, asker, count, node)
}

/// Has a node leave, at each of so many hosts, and writes `left` and its number once the managers know it as a member no more.
/// Its process ends then. It is the one that is named; or that of a host, as the first of the hosts tells it that does: it is
/// looked up once, so no other one is made to leave where the host is started again meanwhile. Where it can't leave at this
/// moment, it is told why, as a manager tells it.
pub fn leave<A: AskHost, K: Sink>(
    alloc: Global,
    asker: &mut A,
    count: usize,
    who: Leaver,
    sink: &mut K,
) -> Result<(), CommandFault>
    ensures does { Did (A.deeds asker.old) (A.deeds asker.new) (λ deeds. LeavesBy who count deeds (K.held sink.old) (K.held sink.new) result) }
    ensures failed { result ≡ Err CommandFault.WriteFault → Rose (K.faults sink.old) (K.faults sink.new) }
{
    let line = left(alloc, asker, count, who)?;
    write(sink, line.as_slice())
}
