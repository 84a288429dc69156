//! A shard under its lock.

ghost use Rattle.std.specs.Prelude.{◌≡◌, ℕ, List, ◌<◌, ◌≤◌, ◌∷◌, [], true, false, not, None, Some, IsTrue, IfOk, OnOk, OnErr, MatchOption};
ghost use Rattle.std.specs.Option.{option_copied, IfSome};
ghost use Rattle.std.specs.List.{AllByRecursion};
ghost use Rattle.hk_base.specs.Range.{IsLetter};
ghost use Rattle.hk_base.specs.declared.time.TheConstants.{MAX_TIME};
ghost use Rattle.hk_node.specs.Sound.{IsNodeEvent};
ghost use Rattle.hk_node.specs.Laws.{IsNoCall};
ghost use Rattle.hk_shard.specs.Shard.{IsShard, IsApplied};
ghost use Rattle.hk_snap.specs.Ends.{names};
ghost use Rattle.hk_snap.specs.Snapshots.{cell_of};
ghost use Rattle.hk_told.specs.Held.{Delivers, IsNewAsk, IsWith};
ghost use Rattle.hk_told.specs.Kept.{asks_in, AreOthersSame};
ghost use Rattle.hk_base.specs.declared.call.Op.TheVariants.{Read};
ghost use Rattle.hk_base.specs.declared.call.CallNo.{CallNo};
ghost use Rattle.hk_node.specs.declared.event.NodeEvent.TheVariants.{Call};
ghost use Rattle.hk_node.specs.Stepped.{replies_of};
ghost use Rattle.hk_node.specs.Steps.{node_step};
ghost use Rattle.hk_node.specs.Calls.{lease_end};
ghost use Rattle.hk_node.specs.Node.{epoch_of};
ghost use Rattle.hk_node.specs.Index.{is_open_at};
ghost use Rattle.hk_locked.specs.Places.{shard_names, node_names};
ghost use Rattle.hk_locked.specs.ByRow.{ReadsRow};
ghost use Rattle.hk_locked.specs.Doubts.{doubt_in};
ghost use Rattle.hk_due.specs.Keys.{Follows};
ghost use Rattle.hk_locked.specs.Makes.{Stands, Makes, MakesCall, CallsAt, IsQuiet, due_in};
ghost use Rattle.hk_due.specs.Due.{due_of_key};
ghost use Rattle.hk_locked.specs.Steps.{IsGrown, Meets, MeetsLease, Ticks, Trims, Begins, StartsAt, LooksFor, LooksOftenFor, GivesUp, HasNoAsk, HasCalled, AreOneOrNone, replies_with, told_asks, is_short};
ghost use Rattle.hk_told.specs.declared.asks.AskState.TheVariants.{Gone};

use crate::by_row::{RowRead, told_by};
use crate::doubt::{Doubt, doubt_in};
use crate::places::Places;
use crate::reader::ShardReader;
use crate::told::{ToldAsks, told_asks};
use hk_base::{Answer, CallNo, Key, Letter, Letters, Memory, NodeId, Op, Replies, Reply};
use hk_callback::{Callbacks, Completion};
use hk_due::{Due, OpenKeys, due_of_key};
use hk_journal::{Journal, share_journal};
use hk_node::{Node, NodeEvent, ReplyList, StepReplies};
use hk_shard::{Held, Shard, ShardOut};
use hk_snap::cell_of;
use hk_told::{Ask, AskState, Asks};
use std::alloc::Global;
use std::marker::{Model, PhantomData};
use std::sync::Wait;

/// What a step gave.
#[derive(Drop)]
pub struct Given {
    /// The letters to send.
    pub letters: Letters,
    /// Whose asks it told.
    pub told: ToldAsks,
}

/// How a call began.
#[derive(Drop)]
pub struct Started {
    /// The ticket of its step.
    pub ticket: u64,
    /// Its answer, if it was answered at once. Else its update waits.
    pub answer: Option<Answer>,
    /// The letters to send.
    pub letters: Letters,
}

/// A shard of a node as it stands under its lock, with the asks of updates that wait, the completions of their calls, and the keys of its open rows. Contracts
/// see which shard of which node it is, the node's skew, the shard, the asks by the numbers of their calls, and the keys.
#[derive(Drop)]
pub struct LockedShard<F: Completion + Copy + Drop, P: Places> {
    node: NodeId,
    number: u8,
    skew: u64,
    shard: Shard,
    asks: Asks,
    completions: Callbacks<F>,
    open_keys: OpenKeys,
    of: PhantomData<P>,
}

impl<F: Completion + Copy + Drop, P: Places> Model for LockedShard<F, P> {
    ghost use Rattle.hk_locked.specs.Locked.{LockedState, IsLocked};

    ghost Value = { LockedState };

    ghost view = { λ s. record { node = s.node; number = s.number; skew = s.skew; shard = s.shard; asks = s.asks; open_keys = s.open_keys } };

    ghost invariant = { λ s. IsLocked P.places (record { node = s.node; number = s.number; skew = s.skew; shard = s.shard; asks = s.asks; open_keys = s.open_keys }) };
}

// Calls the completion of the reply's call, if it has one. One that finds no memory is dropped.
fn fire<F: Completion + Drop>(completions: &mut Callbacks<F>, reply: &Reply) {
    if completions.fire(reply.call, &reply.answer).is_err() {
        completions.forget(reply.call);
    }
}

// Calls the completion of the reply's call, and tells its ask.
fn deliver_one<F: Completion + Drop>(completions: &mut Callbacks<F>, asks: &mut Asks, reply: Reply)
    ensures { Delivers (reply ∷ []) (asks_in asks.old) (asks_in asks.new) }
{
    fire(completions, &reply);
    asks.deliver(reply);
}

// The same of each of these replies.
#[inline(never)]
fn deliver_all<F: Completion + Drop>(
    completions: &mut Callbacks<F>,
    asks: &mut Asks,
    replies: Replies,
)
    ensures { Delivers replies (asks_in asks.old) (asks_in asks.new) }
{
    for reply in replies.into_vec() {
        fire(completions, &reply);
        asks.deliver(reply);
    }
}

// Calls the completions of a step's replies, and tells their asks.
#[tactic(auto, using(crate::proofs::Keeping::heard_nothing))]
fn deliver<F: Completion + Drop>(
    completions: &mut Callbacks<F>,
    asks: &mut Asks,
    replies: StepReplies,
)
    ensures { Delivers replies (asks_in asks.old) (asks_in asks.new) }
{
    match replies.into_list() {
        ReplyList::Nothing => {}
        ReplyList::One(reply) => deliver_one(completions, asks, reply),
        ReplyList::Many(replies) => deliver_all(completions, asks, replies),
    }
}

// Keeps the completion and the ask of a call that has none yet.
fn keep<F: Completion + Drop>(
    completions: &mut Callbacks<F>,
    asks: &mut Asks,
    call: CallNo,
    ask: Ask,
    tell: F,
) -> Result<(), Memory>
    ensures none { OnOk result (asks_in asks.old call ≡ None) }
    ensures kept { OnOk result (IsWith call ask (asks_in asks.old) (asks_in asks.new)) }
    ensures err { OnErr result (asks.new ≡ asks.old) }
{
    if asks.has(call) {
        return Err(Memory);
    }
    if completions.keep(call, tell).is_err() {
        return Err(Memory);
    }
    if asks.keep(call, ask).is_err() {
        completions.forget(call);
        return Err(Memory);
    }
    Ok(())
}

// Drops the completion and the ask of a call.
fn forget<F: Completion + Drop>(completions: &mut Callbacks<F>, asks: &mut Asks, call: CallNo)
    ensures gone { asks_in asks.new call ≡ None }
    ensures others { AreOthersSame call (asks_in asks.old) (asks_in asks.new) }
{
    completions.forget(call);
    asks.forget(call);
}

// What every shard keeps.
fn keeps(shard: &Shard)
    ensures { IsShard shard.now }
{
    shard.part();
}

// An ask that waits.
fn new_ask(key: &Key, ticket: u64) -> Result<Ask, Memory>
    ensures { IfOk result (λ ask. IsNewAsk key.now ticket ask) }
{
    let key = key.share()?;
    Ok(Ask {
        key,
        ticket,
        told: None,
        wanted: true,
    })
}

// The answer of the last of these replies, which are one or none.
#[inline(never)]
fn last_answer(replies: Replies) -> Option<Answer>
    requires { (call : CallNo) × AreOneOrNone call replies }
    ensures { (call : CallNo) → AreOneOrNone call replies → replies ≡ replies_with call result }
{
    match replies.into_vec().pop() {
        Some(reply) => Some(reply.answer),
        None => None,
    }
}

// The answer of the one reply, if there is one.
fn answer_of(replies: StepReplies) -> Option<Answer>
    requires { (call : CallNo) × AreOneOrNone call replies }
    ensures { (call : CallNo) → AreOneOrNone call replies → replies ≡ replies_with call result }
{
    match replies.into_list() {
        ReplyList::Nothing => None,
        ReplyList::One(reply) => Some(reply.answer),
        ReplyList::Many(replies) => last_answer(replies),
    }
}

// Makes the step of a call. Its completion and its ask are kept before, and dropped where it was answered at once or was not made.
fn make_call<F: Completion + Drop, R: Wait>(
    rt: &R,
    alloc: Global,
    shard: &mut Shard,
    keys: &mut OpenKeys,
    completions: &mut Callbacks<F>,
    asks: &mut Asks,
    ticket: u64,
    call: CallNo,
    key: &Key,
    op: &Op,
    tell: F,
) -> Result<Started, Memory>
    requires ticket { shard.old.last < ticket }
    requires shard { IsShard shard.old }
    ensures called { IfOk result (λ started. HasCalled shard.old (asks_in asks.old) ticket call key.now op.now shard.new (asks_in asks.new) started.answer) }
    ensures ticket { IfOk result (λ started. started.ticket ≡ ticket) }
    ensures letters { IfOk result (λ started. AllByRecursion IsLetter started.letters) }
    ensures given { IfOk result (λ started. started.letters ≡ (node_step shard.old.part (Call call key.now op.now)).letters) }
    ensures followed { OnOk result (Follows ticket shard.old.part.rows shard.new.part.rows keys.old keys.new) }
    ensures shard { OnErr result (shard.new ≡ shard.old) }
    ensures unfollowed { OnErr result (keys.new ≡ keys.old) }
    ensures asks { OnErr result ((other : CallNo) → asks_in asks.new other ≡ asks_in asks.old other) }
{
    let event = NodeEvent::of_call(call, key, op)?;
    let ask = new_ask(key, ticket)?;
    keep(completions, asks, call, ask, tell)?;
    let Ok(out) = shard.step(rt, alloc, keys, ticket, event) else {
        forget(completions, asks, call);
        return Err(Memory);
    };
    let letters = out.letters;
    let Some(answer) = answer_of(out.replies) else {
        return Ok(Started {
            ticket,
            answer: None,
            letters,
        });
    };
    forget(completions, asks, call);
    Ok(Started {
        ticket,
        answer: Some(answer),
        letters,
    })
}

impl<F: Completion + Copy + Drop, P: Places> LockedShard<F, P> {
    /// The shard of this number of the node, at which nothing happened yet. It takes no memory.
    pub fn new(
        alloc: Global,
        node: NodeId,
        number: u8,
        skew: u64,
        shard: Shard,
    ) -> LockedShard<F, P>
        requires cells { names shard.ends ≡ (shard_names P.places node number).cells }
        requires lease { shard.lease.name ≡ (shard_names P.places node number).lease }
        requires skew { skew ≡ (node_names P.places node).skew }
        requires part { shard.part.skew ≡ skew }
        requires rows { shard.part.rows ≡ [] }
    {
        LockedShard {
            node,
            number,
            skew,
            shard,
            asks: Asks::new(alloc),
            completions: Callbacks::new(alloc),
            open_keys: OpenKeys::new(alloc),
            of: PhantomData,
        }
    }

    /// The ticket of the last step, 0 before there was one.
    pub fn last_ticket(&self) -> u64
        ensures { result ≡ self.now.shard.last }
    {
        self.shard.last_ticket()
    }

    /// The epoch of the view that its part has, 0 where it has none.
    pub fn epoch(&self) -> u64
        ensures { result ≡ epoch_of self.now.shard.part }
    {
        self.shard.part().epoch()
    }

    /// Whether its part has all rows: it is a founder's, or has copied them.
    pub fn is_whole(&self) -> bool
        ensures { result ≡ self.now.shard.part.ready }
    {
        self.shard.part().ready()
    }

    /// How much its part holds.
    pub fn held(&self) -> Held {
        self.shard.held()
    }

    /// Whether the key's row is Valid, or there is none. It looks at no row, unless memory was wanting for keys of open rows.
    pub fn is_settled(&self, key: &Key) -> bool
        ensures { result ≡ not (is_open_at self.now.shard.part.rows key.now) }
    {
        !self.open_keys.is_open(self.shard.part(), key)
    }

    /// Whether it is the node's shard of this number.
    pub fn is_of(&self, node: NodeId, number: u8) -> bool
        ensures same { IsTrue result → (self.now.node ≡ node) × (self.now.number ≡ number) }
        ensures stands { Stands P.places self.now }
    {
        keeps(&self.shard);
        self.node == node && self.number == number
    }

    /// Whether a row is open, one that is not Valid.
    pub fn has_open(&self) -> bool
        ensures { result ≡ false → IsQuiet self.now }
    {
        !self.open_keys.is_empty()
    }

    /// What is to be sent again of the least key behind this one, or of all, that is open since a step of a ticket up to `before`. It looks at no row but that
    /// key's, unless memory was wanting for keys of open rows.
    pub fn due(&self, after: Option<&Key>, before: u64) -> Result<Option<Due>, Memory>
        ensures { IfOk result (λ due. due ≡ due_in (option_copied after.entry) before self.now) }
    {
        self.open_keys.due(self.shard.part(), after, before)
    }

    /// What is to be sent again of a key, if its row is open. It looks at no other row.
    pub fn due_of_key(&self, key: &Key) -> Result<Option<Due>, Memory>
        ensures { IfOk result (λ due. due ≡ due_of_key self.now.shard.part.rows key.now) }
    {
        due_of_key(self.shard.part(), key)
    }

    /// What a letter that comes shows, if it is one that no node would send in a group whose nodes all run as they began.
    pub fn doubt(&self, letter: &Letter) -> Option<Doubt>
        requires { IsLetter letter.now }
        ensures { result ≡ doubt_in self.now.node self.now.shard.part letter.now }
    {
        keeps(&self.shard);
        doubt_in(self.node, self.shard.part(), letter)
    }

    /// Makes the step of an event that is no call, publishes the rows that it changed, calls the completions of its replies and tells the asks. After `Memory`
    /// nothing has changed.
    pub fn apply<R: Wait>(
        &mut self,
        rt: &R,
        alloc: Global,
        ticket: u64,
        event: NodeEvent,
    ) -> Result<Given, Memory>
        requires ticket { self.old.shard.last < ticket }
        requires event { IsNodeEvent event }
        requires no_call { IsNoCall event }
        ensures letters { IfOk result (λ given. AllByRecursion IsLetter given.letters) }
        ensures applied { OnOk result (IsApplied self.old.shard ticket event self.new.shard) }
        ensures made { IfOk result (λ given. Makes ticket event given.letters self.old self.new) }
        ensures told { OnOk result (Delivers (replies_of (node_step self.old.shard.part event)) (asks_in self.old.asks) (asks_in self.new.asks)) }
        ensures heard { IfOk result (λ given. given.told ≡ told_asks (replies_of (node_step self.old.shard.part event))) }
        ensures stands { OnOk result (Stands P.places self.new) }
        ensures err { OnErr result (self.new ≡ self.old) }
    {
        keeps(&self.shard);
        let out = self
            .shard
            .step(rt, alloc, &mut self.open_keys, ticket, event)?;
        let ShardOut { letters, replies } = out;
        let told = told_asks(&replies);
        deliver(&mut self.completions, &mut self.asks, replies);
        keeps(&self.shard);
        Ok(Given { letters, told })
    }

    // Whether the reader is of this shard.
    fn is_read_by(&self, reader: &ShardReader<P>) -> bool
        ensures { IsTrue result → (reader.now.node ≡ self.now.node) × (reader.now.number ≡ self.now.number) }
    {
        self.node == reader.node && self.number == reader.number
    }

    /// By one load of the key's cell the reader has seen all that was published in it.
    pub fn meet(&mut self, key: &Key, reader: &mut ShardReader<P>) -> Result<(), Memory>
        ensures same { self.new ≡ self.old }
        ensures met { OnOk result (Meets self.old key.now reader.old reader.new) }
        ensures err { OnErr result (reader.new ≡ reader.old) }
    {
        self.meet_cell(cell_of(key), reader)
    }

    // The same of a cell, 0 to 31, and each key that is published there.
    fn meet_cell(&mut self, cell: u8, reader: &mut ShardReader<P>) -> Result<(), Memory>
        requires { cell < 32 }
        ensures same { self.new ≡ self.old }
        ensures met { OnOk result ((key : List ℕ) → cell ≡ cell_of key → Meets self.old key reader.old reader.new) }
        ensures err { OnErr result (reader.new ≡ reader.old) }
    {
        if !self.is_read_by(reader) {
            return Err(Memory);
        }
        keeps(&self.shard);
        self.shard.see(cell, &mut reader.cells);
        Ok(())
    }

    /// By one load the reader has seen the end of the lease and the clock.
    pub fn meet_lease<R: Wait>(&mut self, rt: &R, reader: &mut ShardReader<P>) -> Result<(), Memory>
        ensures same { self.new ≡ self.old }
        ensures met { OnOk result (MeetsLease self.old reader.old reader.new) }
        ensures err { OnErr result (reader.new ≡ reader.old) }
    {
        if !self.is_read_by(reader) {
            return Err(Memory);
        }
        self.shard.meet_lease(rt, &mut reader.lease)?;
        Ok(())
    }

    /// What a read of the key is told from its row, by one load of the key's cell and one of the lease by the reader. It is shown by what the reader has seen as long
    /// as the lease runs, whose end is told with it. None where the row is not Valid. No step is made.
    pub fn read_row<R: Wait>(
        &mut self,
        rt: &R,
        key: &Key,
        reader: &mut ShardReader<P>,
    ) -> Result<Option<RowRead>, Memory>
        ensures same { self.new ≡ self.old }
        ensures read { IfOk result (λ read. IfSome read (λ r. ReadsRow key.now reader.old reader.new r.end r.answer)) }
        ensures grown { IsGrown key.now reader.old reader.new }
    {
        keeps(&self.shard);
        self.meet(key, reader)?;
        self.meet_lease(rt, reader)?;
        let part = self.shard.part();
        let end = part.lease_end();
        let Some(answer) = told_by(part, key)? else {
            return Ok(None);
        };
        Ok(Some(RowRead { answer, end }))
    }

    // Makes the step of a call.
    fn begin<R: Wait>(
        &mut self,
        rt: &R,
        alloc: Global,
        ticket: u64,
        call: CallNo,
        key: &Key,
        op: &Op,
        tell: F,
    ) -> Result<Started, Memory>
        requires ticket { self.old.shard.last < ticket }
        ensures begins { IfOk result (λ started. Begins self.old self.new call key.now ticket op.now started.answer) }
        ensures made { IfOk result (λ started. MakesCall ticket call key.now op.now started.letters started.answer self.old self.new) }
        ensures stood { OnOk result (Stands P.places self.old) }
        ensures stands { OnOk result (Stands P.places self.new) }
        ensures ticket { IfOk result (λ started. started.ticket ≡ ticket) }
        ensures letters { IfOk result (λ started. AllByRecursion IsLetter started.letters) }
        ensures node { self.new.node ≡ self.old.node }
        ensures number { self.new.number ≡ self.old.number }
        ensures skew { self.new.skew ≡ self.old.skew }
    {
        keeps(&self.shard);
        let started = make_call(
            rt,
            alloc,
            &mut self.shard,
            &mut self.open_keys,
            &mut self.completions,
            &mut self.asks,
            ticket,
            call,
            key,
            op,
            tell,
        )?;
        keeps(&self.shard);
        Ok(started)
    }

    /// Makes a call, between two loads of the key's cell by the reader; the lease is loaded once. Where it answers `Memory` the update may have begun.
    pub fn start<R: Wait>(
        &mut self,
        rt: &R,
        alloc: Global,
        reader: &mut ShardReader<P>,
        ticket: u64,
        call: CallNo,
        key: &Key,
        op: &Op,
        tell: F,
    ) -> Result<Started, Memory>
        requires ticket { self.old.shard.last < ticket }
        ensures starts { IfOk result (λ started. StartsAt reader.old reader.new call key.now started.ticket op.now started.answer) }
        ensures made { IfOk result (λ started. CallsAt P.places self.old self.new reader.old reader.new started.ticket call key.now op.now started.letters started.answer) }
        ensures letters { IfOk result (λ started. AllByRecursion IsLetter started.letters) }
        ensures grown { IsGrown key.now reader.old reader.new }
    {
        let cell = cell_of(key);
        self.meet_cell(cell, reader)?;
        self.meet_lease(rt, reader)?;
        let started = self.begin(rt, alloc, ticket, call, key, op, tell)?;
        self.meet_cell(cell, reader)?;
        Ok(started)
    }

    /// How the ask stands of the call that began under the ticket, with one load of the key's cell by the reader.
    pub fn look(
        &mut self,
        reader: &mut ShardReader<P>,
        key: &Key,
        call: CallNo,
        ticket: u64,
    ) -> Result<AskState, Memory>
        ensures looks { IfOk result (λ look. LooksFor key.now ticket reader.old reader.new look) }
        ensures gone { IfOk result (λ look. look ≡ Gone → HasNoAsk call key.now ticket self.old) }
        ensures grown { IsGrown key.now reader.old reader.new }
    {
        self.meet(key, reader)?;
        if !self.asks.is_at(call, key) {
            return Ok(AskState::Gone);
        }
        Ok(self.asks.look(call, ticket))
    }

    /// The same with so many loads, one after the other. Nothing is told or published between them, so the ask is looked at once.
    pub fn look_on(
        &mut self,
        reader: &mut ShardReader<P>,
        key: &Key,
        call: CallNo,
        ticket: u64,
        looks: u64,
    ) -> Result<AskState, Memory>
        requires { 1 ≤ looks }
        ensures looks { IfOk result (λ look. LooksOftenFor looks key.now ticket reader.old reader.new look) }
        ensures gone { IfOk result (λ look. look ≡ Gone → HasNoAsk call key.now ticket self.old) }
        ensures grown { IsGrown key.now reader.old reader.new }
    {
        for _met in 0..looks - 1 {
            self.meet(key, reader)?;
        }
        self.look(reader, key, call, ticket)
    }

    // Whether of the time for which a lease of this length serves, where clocks may differ by `skew`, less is left than has gone.
    fn is_short(&self, length: u64, skew: u64) -> bool
        ensures { result ≡ is_short length skew (lease_end self.now.shard.part) self.now.shard.part.clock }
    {
        let part = self.shard.part();
        let left = part
            .lease_end()
            .saturating_sub(part.now())
            .saturating_sub(skew);
        left < length.saturating_sub(skew).saturating_sub(left)
    }

    // Raises the clock to a reading, where it is below that.
    fn raise<R: Wait>(&mut self, rt: &R, alloc: Global, ticket: u64, now: u64) -> Result<(), Memory>
        requires ticket { self.old.shard.last < ticket }
        requires now { now ≤ MAX_TIME }
        ensures { OnOk result (now ≤ self.new.shard.part.clock) }
    {
        if self.shard.part().now() >= now {
            return Ok(());
        }
        self.apply(rt, alloc, ticket, NodeEvent::Tick { now })?;
        Ok(())
    }

    /// Raises the clock to a reading, where it is below that, and the reader sees it by one load of the lease. It gives whether of the time for which a lease of
    /// this length serves less is left then than has gone. Where it answers `Memory` the clock may have risen.
    pub fn tick<R: Wait>(
        &mut self,
        rt: &R,
        alloc: Global,
        reader: &mut ShardReader<P>,
        ticket: u64,
        now: u64,
        length: u64,
    ) -> Result<bool, Memory>
        requires ticket { self.old.shard.last < ticket }
        requires now { now ≤ MAX_TIME }
        ensures ticks { OnOk result (Ticks now reader.old reader.new) }
        ensures short { IfOk result (λ short. short ≡ is_short length reader.new.skew reader.new.lease.end reader.new.lease.now) }
        ensures err { OnErr result (reader.new ≡ reader.old) }
    {
        self.raise(rt, alloc, ticket, now)?;
        let short = self.is_short(length, reader.skew);
        self.meet_lease(rt, reader)?;
        reader.ticked = now;
        Ok(short)
    }

    /// Nobody waits any more for what the call is told. It takes no memory.
    pub fn give_up(&mut self, call: CallNo)
        ensures { GivesUp call self.old self.new }
    {
        self.asks.give_up(call);
    }

    /// Another reader of the shard, which has seen nothing yet.
    pub fn reader<R: Wait>(&mut self, rt: &R, alloc: Global) -> Result<ShardReader<P>, Memory> {
        keeps(&self.shard);
        let (cells, lease) = self.shard.reader(rt, alloc)?;
        Ok(ShardReader::new(self.node, self.number, self.skew, cells, lease))
    }

    /// Hands out the journal and begins a new one, if it has so many entries at least. After `Memory` nothing has changed.
    pub fn trim(&mut self, alloc: Global, entries: usize) -> Result<Option<Journal>, Memory>
        ensures trims { IfOk result (λ journal. Trims entries self.old self.new journal) }
        ensures err { OnErr result (self.new ≡ self.old) }
    {
        if self.shard.journal().len() < entries {
            return Ok(None);
        }
        let journal = self.shard.checkpoint(alloc)?;
        Ok(Some(journal))
    }

    /// The journal.
    pub fn journal(&self) -> &Journal
        ensures { result.now ≡ self.now.shard.journal }
    {
        self.shard.journal()
    }

    /// A copy of the journal, in which keys and contents are shared.
    pub fn copy_journal(&self, alloc: Global) -> Result<Journal, Memory>
        ensures { IfOk result (λ journal. journal ≡ self.now.shard.journal) }
    {
        share_journal(alloc, self.shard.journal().as_slice())
    }
}
