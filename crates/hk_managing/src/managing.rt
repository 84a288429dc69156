//! The job of a host's manager.

ghost use Rattle.std.specs.Prelude.{◌≡◌, ◌≤◌, ◌<◌, [], List, OnOk, IfOk};
ghost use Rattle.hk_base.specs.declared.time.TheConstants.{MAX_TIME};
ghost use Rattle.hk_log.specs.declared.entry.Entry.{Entry};
ghost use Rattle.hk_managing.specs.Turns.{StayTold};
ghost use Rattle.hk_managing.specs.Intending.{intent_of, intent_in, intents_of};

use crate::answers::Answers;
use crate::begin::{Begun, ManagerStart};
use crate::cores::{Cores, NOTHING, Unlogged};
use crate::gathered::{Gathered, Replies, Seen};
use crate::looks::Looks;
use crate::relay::Relay;
use crate::stand::stand;
use hk_base::{Actor, Body, MAX_TIME, Memory, NodeId, View};
use hk_boards::{Boards, TicketsTold};
use hk_disk::LogFile;
use hk_durable::{Intent, LateClock};
use hk_fields::Ticket;
use hk_inside::Inquiry;
use hk_keeper::Wish;
use hk_lease::wait;
use hk_link::{Inlet, Parcel};
use hk_office::{Acting, Office, has_founding_in_range};
use hk_outside::{Clock, Job};
use hk_routes::{Follower, Routes};
use hk_shared_state::{Coming, LostTail, Notice, SharedState, Slot};
use std::io::Eprint;
use std::sync::atomic::{AtomicU64, Ordering};
use std::sync::{Arc, Wait};

// So much that waits is taken in one turn.
const MOST_TAKEN: usize = 64;

const NO_WISHES: [Wish; 8] = [Wish::Nothing; 8];

/// The manager of a host: what it knows, and its cores.
#[derive(Drop)]
pub struct ManagerJob<R: Wait + Drop, C: Drop, F: LogFile + Drop> {
    shared: Arc<SharedState<R, C>>,
    office: Office,
    cores: Cores<F>,
    // What comes for the cores.
    relay: Relay,
    // The outlets of the cores, as they change.
    routes: Follower,
    // When it looked last at what it heard, and whether it may wish by that.
    looks: Looks,
    // Whether a majority of the managers answers.
    answers: Answers,
    // By shards the epoch of the last view that it let begin, 0 where it let none.
    begun: [u64; 8],
    // How many records its log has.
    records: u64,
    // The process's clock, as the cores read it.
    behind: Behind<C>,
    // The reading behind which this process reports that its manager is open, once it does.
    open_since: Option<u64>,
    // The reading from which on the manager acts, once it does.
    acts_since: Option<u64>,
    // The members of the views that its operator was told of last, none at first.
    told: Vec<NodeId>,
}

/// A clock that is shared, read behind what was taken. It notes when a node asked last for a lease.
#[derive(Drop)]
pub struct Behind<C: Drop> {
    clock: Arc<C>,
    // 0 where none did.
    asked: AtomicU64,
}

impl<C: Drop> Behind<C> {
    /// No node asked yet.
    pub fn new(clock: Arc<C>) -> Behind<C> {
        Behind {
            clock,
            asked: AtomicU64::new(0),
        }
    }

    /// The reading of the last turn in which a node asked for a lease, 0 before the first one.
    pub fn asked(&self) -> u64 {
        self.asked.load(Ordering::SeqCst)
    }
}

// Whether a node asks for a lease.
fn is_ask(parcel: &Parcel) -> bool {
    matches!(&parcel.letter.body, Body::LeaseAsk { .. })
}

impl<C: Clock + Drop> LateClock for Behind<C> {
    ghost use Rattle.std.specs.Prelude.{◌≡◌, IfSome};
    ghost use Rattle.std.specs.Arc.{arc_value};

    ghost was_read = { λ late. λ taken. λ now. IfSome (C.reading (arc_value late.clock)) (λ time. now ≡ time) };

    fn read_behind(&self, taken: &[Parcel]) -> u64 {
        let now = self.clock.now();
        if taken.iter().any(|parcel| is_ask(parcel)) {
            self.asked.store(now, Ordering::SeqCst);
        }
        now
    }
}

// The number that is claimed, if one is.
fn claimed(inquiry: &Inquiry) -> Option<NodeId> {
    match inquiry {
        Inquiry::Claim { node, .. } => Some(*node),
        _ => None,
    }
}

// Whether a manager answers it before it acts: by these it is founded and opens, and heard of. The others rest on what it knows of the group.
fn needs_no_act(inquiry: &Inquiry) -> bool {
    match inquiry {
        Inquiry::Report(_) => true,
        Inquiry::Look { .. } => true,
        Inquiry::Found { .. } => true,
        Inquiry::Status => true,
        Inquiry::Seat(_) => false,
        Inquiry::Claim { .. } => false,
        Inquiry::Leave(_) => false,
    }
}

// What shows that a log of so many records lost others, if anything does.
fn tail_lost(boards: &Boards, records: u64) -> Option<LostTail> {
    let (place, told) = boards.most_records()?;
    if told <= records {
        return None;
    }
    Some(LostTail {
        records,
        place,
        told,
    })
}

// What is intended where this is wished of a view, and the last view that this manager let begin has the epoch `begun`. One that only others let begin it does too: whoever
// is left out learns of it from a majority of those that did.
fn intent_of(view: &View, wish: Wish, begun: u64) -> Intent
    ensures { result ≡ intent_of view.now wish begun }
{
    match wish {
        Wish::Nothing => {
            if begun < view.epoch {
                Intent::Activate
            } else {
                Intent::Nothing
            }
        }
        Wish::Propose(proposal) => Intent::Propose {
            base: view.epoch,
            change: proposal.change,
        },
        Wish::Activate => Intent::Activate,
    }
}

// What is intended in a shard.
fn intent_in(views: &[View], wishes: &[Wish; 8], begun: &[u64; 8], shard: usize) -> Intent
    requires { shard < 8 }
    ensures { result ≡ intent_in views.now wishes.now begun.now shard }
{
    match views.get(shard) {
        Some(view) => intent_of(view, wishes[shard], begun[shard]),
        None => Intent::Nothing,
    }
}

fn intents_of(views: &[View], wishes: &[Wish; 8], begun: &[u64; 8]) -> [Intent; 8]
    ensures { result ≡ intents_of views.now wishes.now begun.now }
{
    [
        intent_in(views, wishes, begun, 0),
        intent_in(views, wishes, begun, 1),
        intent_in(views, wishes, begun, 2),
        intent_in(views, wishes, begun, 3),
        intent_in(views, wishes, begun, 4),
        intent_in(views, wishes, begun, 5),
        intent_in(views, wishes, begun, 6),
        intent_in(views, wishes, begun, 7),
    ]
}

// The members of views, where the last ones that this manager let begin are these, and all have the same.
fn members_begun<'a>(views: &'a [View], begun: &[u64; 8]) -> Option<&'a [NodeId]> {
    let (first, _) = views.split_first()?;
    let members = first.members.as_slice();
    for (view, epoch) in views.iter().zip(begun.iter()) {
        if view.epoch != *epoch || view.members.as_slice() != members {
            return None;
        }
    }
    Some(members)
}

impl<R: Wait + Eprint + Drop, C: Clock + Drop, F: LogFile + Drop> ManagerJob<R, C, F> {
    /// The job of the manager that begins so, whose letters come by the inlet and go by the routes. `clock` is the clock of the shared state.
    pub fn new(
        shared: Arc<SharedState<R, C>>,
        start: ManagerStart<F>,
        inlet: Inlet,
        routes: &Arc<Routes>,
        clock: Arc<C>,
    ) -> Result<ManagerJob<R, C, F>, Memory> {
        let alloc = shared.alloc;
        let (routes, outlets) = Follower::begin(&shared.rt, alloc, routes)?;
        let (relay, inlet) = Relay::new(alloc, inlet)?;
        let ManagerStart { begun, writer } = start;
        let Begun {
            office,
            managers,
            records,
        } = begun;
        let cores = Cores::new(managers, inlet, outlets, writer);
        let mut job = ManagerJob {
            shared,
            office,
            cores,
            relay,
            routes,
            looks: Looks::none(),
            answers: Answers::none(),
            begun: [0; 8],
            records,
            behind: Behind::new(clock),
            open_since: None,
            acts_since: None,
            told: Vec::new(alloc),
        };
        job.publish();
        Ok(job)
    }

    fn now(&self) -> u64
        ensures { result ≤ MAX_TIME }
    {
        self.shared.clock.now().min(MAX_TIME)
    }

    // The views that the cores hold. None while the group is not open.
    fn views(&self) -> Result<Vec<View>, Memory> {
        if self.office.takes_letters() {
            self.cores.views(self.shared.alloc)
        } else {
            Ok(Vec::new(self.shared.alloc))
        }
    }

    // A lease that was granted at a reading ends within the wait behind it, and one from before the process began within the wait behind its first reading.
    fn acting(&self) -> Acting {
        let asked = self.behind.asked().max(1);
        Acting {
            since: self.acts_since,
            until: asked.saturating_add(wait(u64::from(self.shared.identity.lease))),
        }
    }

    // What the last boards of all managers told of a number.
    fn told_of(&self, node: NodeId) -> TicketsTold {
        let guard = self.shared.standing.lock(&self.shared.rt);
        let standing = &*guard;
        standing.boards.told_of(self.office.founding(), node)
    }

    fn ask_by(
        &mut self,
        gathered: &mut Gathered,
        told: &[Option<Ticket>],
        inquiry: Inquiry,
        slot: Arc<Slot>,
    ) -> Result<(), Unlogged>
        ensures { OnOk result (StayTold self.old.office gathered.old.notes.items self.new.office gathered.new.notes.items) }
    {
        let alloc = self.shared.alloc;
        if !has_founding_in_range(&inquiry) {
            return Ok(());
        }
        if self.cores.is_shut() && self.office.takes_letters() && !needs_no_act(&inquiry) {
            return Ok(());
        }
        let Ok(views) = self.views() else {
            return Ok(());
        };
        let now = self.now();
        let acting = self.acting();
        let seen = Seen {
            now,
            name: self.shared.identity.group.as_slice(),
            views: &views,
            told,
            acting,
        };
        gathered.ask(alloc, &mut self.office, &seen, inquiry, slot)
    }

    fn ask(
        &mut self,
        gathered: &mut Gathered,
        inquiry: Inquiry,
        slot: Arc<Slot>,
    ) -> Result<(), Unlogged>
        ensures { OnOk result (StayTold self.old.office gathered.old.notes.items self.new.office gathered.new.notes.items) }
    {
        match claimed(&inquiry) {
            Some(node) => {
                let told = self.told_of(node);
                self.ask_by(gathered, told.as_slice(), inquiry, slot)
            }
            None => self.ask_by(gathered, &[], inquiry, slot),
        }
    }

    // The manager of a place told its board.
    fn hear(&mut self, gathered: &mut Gathered, place: u8) -> Result<(), Unlogged>
        ensures { OnOk result (StayTold self.old.office gathered.old.notes.items self.new.office gathered.new.notes.items) }
    {
        let alloc = self.shared.alloc;
        let now = self.now();
        let guard = self.shared.standing.lock(&self.shared.rt);
        let standing = &*guard;
        match standing.boards.of(place) {
            Some(heard) => gathered.hear(alloc, &mut self.office, now, place, heard),
            None => Ok(()),
        }
    }

    fn take(&mut self, gathered: &mut Gathered, coming: Coming) -> Result<(), Unlogged>
        ensures { OnOk result (StayTold self.old.office gathered.old.notes.items self.new.office gathered.new.notes.items) }
    {
        match coming {
            Coming::Asked { inquiry, slot } => self.ask(gathered, inquiry, slot),
            Coming::Told { place } => self.hear(gathered, place),
        }
    }

    // All that waits, so much at most.
    fn take_all(&mut self, gathered: &mut Gathered) -> Result<(), Unlogged>
        ensures { OnOk result (StayTold self.old.office gathered.old.notes.items self.new.office gathered.new.notes.items) }
    {
        for _taken in 0..MOST_TAKEN {
            let Some(coming) = self.shared.mailbox.take(&self.shared.rt) else {
                return Ok(());
            };
            self.take(gathered, coming)?;
        }
        Ok(())
    }

    fn gather(&mut self) -> Result<Gathered, Unlogged>
        ensures { IfOk result (λ gathered. StayTold self.old.office [] self.new.office gathered.notes.items) }
    {
        let alloc = self.shared.alloc;
        let mut gathered = Gathered::new(alloc);
        self.take_all(&mut gathered)?;
        let now = self.now();
        gathered.tick(alloc, &mut self.office, now)?;
        Ok(gathered)
    }

    // The log takes what was gathered, and the cores make a turn, with what is intended.
    fn make_sure(
        &mut self,
        gathered: Gathered,
        intents: &[Intent; 8],
    ) -> Result<Replies, Unlogged> {
        let replies = gathered.sure(
            &self.shared.rt,
            self.shared.alloc,
            &self.behind,
            &mut self.cores,
            intents,
        )?;
        self.records = self.records.saturating_add(replies.records());
        Ok(replies)
    }

    // Others of this process learn how the manager stands. From the first reading behind that reports tell that it is open.
    fn publish(&mut self) {
        let mut guard = self.shared.standing.lock(&self.shared.rt);
        let standing = &mut *guard;
        stand(
            standing,
            &self.office,
            self.shared.identity.place,
            self.shared.identity.ticket,
            self.records,
        );
        if self.open_since.is_none() && self.office.takes_letters() {
            self.open_since = Some(self.shared.clock.now());
        }
    }

    // Others of this process learn that it has no manager any more: its reports tell of none, and no letter is taken for one.
    fn withdraw(&self) {
        let mut guard = self.shared.standing.lock(&self.shared.rt);
        let standing = &mut *guard;
        standing.manager = None;
    }

    // Whether a majority of the managers answered, this one counted, what was asked behind a reading, and none was told of more records than its log has.
    fn is_answered(&self, since: u64) -> bool {
        let Some(place) = self.shared.identity.place else {
            return false;
        };
        let guard = self.shared.standing.lock(&self.shared.rt);
        let standing = &*guard;
        standing.boards.majority_answered(place, since)
            && tail_lost(&standing.boards, self.records).is_none()
    }

    // The manager acts once it is open and answered.
    fn act(&mut self) {
        let Some(since) = self.open_since else {
            return;
        };
        if self.acts_since.is_none() && self.is_answered(since) {
            self.cores.open(self.shared.alloc);
            self.acts_since = Some(self.shared.clock.now());
        }
    }

    // Whether the log lost records that another manager was told of. Who ends the process learns it.
    fn has_lost_tail(&self) -> bool {
        let mut guard = self.shared.standing.lock(&self.shared.rt);
        let standing = &mut *guard;
        standing.lost_tail = tail_lost(&standing.boards, self.records);
        standing.lost_tail.is_some()
    }

    // From now on letters of the cores go by the routes as they are now.
    fn follow_routes(&mut self)
        ensures { self.new.office ≡ self.old.office }
    {
        if let Some(outlets) = self.routes.renewed(&self.shared.rt, self.shared.alloc) {
            self.cores.lead(outlets);
        }
    }

    // Letters pass on to the cores, whose own go by the routes as they are now. It gives whether more may wait.
    fn pass_letters(&mut self) -> bool
        ensures { (notes : List Entry) → StayTold self.old.office notes self.new.office notes }
    {
        if self.cores.is_shut() {
            return false;
        }
        self.follow_routes();
        let now = self.now();
        self.relay
            .pass(&self.shared.rt, &mut self.office, now)
            .unwrap_or(true)
    }

    // Whether it is time to look at what it heard: once each beat, and only where it acts.
    fn is_to_look(&self, now: u64) -> bool {
        self.acts_since.is_some()
            && now.saturating_sub(self.looks.last) >= self.shared.identity.beat()
    }

    // Notes whether a majority of the managers answers, each within half a lease.
    fn note_answers(&mut self, now: u64)
        requires { now ≤ MAX_TIME }
        ensures { self.new.office ≡ self.old.office }
    {
        let lease = self.shared.identity.lease;
        let beat = self.shared.identity.beat();
        let answered = self.is_answered(now.saturating_sub(u64::from(lease / 2)));
        self.answers.hear(lease, beat, now, answered);
    }

    // How long ago nodes asked this manager for leases, for its reports to others.
    fn tell_asks(&self, now: u64, views: &[View]) {
        let Ok(seen) = self.office.asks_seen(self.shared.alloc, now, views) else {
            return;
        };
        let mut guard = self.shared.standing.lock(&self.shared.rt);
        let standing = &mut *guard;
        standing.asks = seen;
    }

    // The operator is told of the members, once views with them began in all shards.
    fn tell_members(&mut self, views: &[View])
        ensures { self.new.office ≡ self.old.office }
    {
        let Some(members) = members_begun(views, &self.begun) else {
            return;
        };
        if self.told.as_slice() == members {
            return;
        }
        let Ok(told) = members.to_vec(self.shared.alloc) else {
            return;
        };
        self.told = told;
        self.shared.tell(&Notice::Begins { members });
    }

    // What the cores are to do of themselves in this turn.
    fn intents(&mut self) -> [Intent; 8]
        ensures { (notes : List Entry) → StayTold self.old.office notes self.new.office notes }
    {
        let now = self.now();
        if !self.is_to_look(now) {
            return NOTHING;
        }
        self.looks.look(now, self.shared.identity.lease);
        let Ok(views) = self.cores.views(self.shared.alloc) else {
            return NOTHING;
        };
        if views.len() != 8 {
            return NOTHING;
        }
        self.tell_asks(now, &views);
        self.tell_members(&views);
        self.note_answers(now);
        if self.looks.rests(now) || !self.answers.may_wish(now) {
            return intents_of(&views, &NO_WISHES, &self.begun);
        }
        match self.office.intents(self.shared.alloc, now, &views) {
            Ok(wishes) => intents_of(&views, &wishes, &self.begun),
            Err(_) => NOTHING,
        }
    }

    // The office learns which views were let begin. Where memory is wanting it learns that of a later turn.
    fn note_begun(&mut self, intents: &[Intent; 8])
        ensures { (notes : List Entry) → StayTold self.old.office notes self.new.office notes }
    {
        let alloc = self.shared.alloc;
        let Ok(begun) = self.cores.begun(alloc, intents) else {
            return;
        };
        for (shard, view) in &begun {
            if *shard < 8 && self.office.note_begun(alloc, *shard, view).is_ok() {
                self.begun[usize::from(*shard)] = view.epoch;
            }
        }
    }

    /// One turn: what came is gathered, then it is made sure, and only then is anything of it told. After an error nothing is told any more. It gives whether more letters
    /// may wait.
    pub fn turn(&mut self) -> Result<bool, Unlogged> {
        let was_open = self.office.takes_letters();
        let gathered = self.gather()?;
        let more = self.pass_letters();
        let intents = self.intents();
        let replies = self.make_sure(gathered, &intents)?;
        self.note_begun(&intents);
        if !was_open && self.office.takes_letters() {
            self.shared.tell(&Notice::Open {
                founding: self.office.founding(),
            });
        }
        self.publish();
        self.act();
        replies.leave(&self.shared.rt);
        Ok(more)
    }
}

impl<
    R: Wait + Eprint + Copy + Send + Sync + Drop + 'static,
    C: Clock + Send + Sync + Drop + 'static,
    F: LogFile + Send + Drop + 'static,
> Job for ManagerJob<R, C, F> {
    fn run(self) {
        let mut manager = self;
        let rt = manager.shared.rt;
        for _ in rt.forever() {
            let heard = manager.shared.mailbox.bell.rings();
            if manager.has_lost_tail() {
                return;
            }
            match manager.turn() {
                Ok(true) => {}
                Ok(false) => manager.shared.mailbox.bell.wait(&rt, heard),
                Err(_) => {
                    manager.withdraw();
                    manager.shared.tell(&Notice::LogEnded);
                    return;
                }
            }
        }
    }
}
