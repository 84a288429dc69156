//! What the table keeps.

ghost use Rattle.hk_key.specs.Worked.{NotSettled, Settles, WaitsInTrans, GivesUp, Counters, AloneCompletes, CopiesNothing};
ghost use Rattle.hk_key.specs.Laws.{FirstIsSound, BeginIsSound, ReplayKeepsSound, InvKeepsSound, AckKeepsSound, ValKeepsSound, ViewKeepsSound, CopyKeepsSound};
ghost use Rattle.hk_key.specs.Laws.{EachIsSame, SameAfterInv, SameAfterAck, SameAfterVal, SameAfterView, SameAfterCopy, SameAfterReplay, ResendKeepsRow, ReplayChanges, BeginChanges};
ghost use Rattle.hk_key.specs.Laws.{BeginTakesStamp, ReplayNeverLowers, InvNeverLowers, AckNeverLowers, ValNeverLowers, ViewNeverLowers, CopyNeverLowers, ResendNeverLowers};
ghost use Rattle.hk_key.specs.Laws.{BeginAnswersOrWaits, ReplayAnswersOrWaits, InvAnswersOrWaits, AckAnswersOrWaits, ValAnswersOrWaits, ViewAnswersOrWaits, ResendAnswersOrWaits};
ghost use Rattle.hk_key.specs.Laws.{InvAnswersWaiting, AckAnswersWaiting, ViewAnswersWaiting, ReplayAnswersNone, ResendAnswersNone, BeginAnswersOwn};

/// Rows stay sound: the first row is sound, `begin` makes a sound row, and every other step keeps one sound. A row is
/// sound where its version is within the limit, where it has a pending update in just the states Write, Replay and Trans,
/// with its own stamp in the first two and a lower one in Trans, where that update is a call's in Write and Trans, in
/// Trans a plain write, and in Replay no call's, where the row at `0.0` is the first one, and what any other row or a
/// pending update leaves is nothing only with kind Rmw, and where the notes are of distinct other members.
pub fn rows_stay_sound()
    ensures first { FirstIsSound }
    ensures begin { BeginIsSound }
    ensures replay { ReplayKeepsSound }
    ensures inv { InvKeepsSound }
    ensures ack { AckKeepsSound }
    ensures val { ValKeepsSound }
    ensures view { ViewKeepsSound }
    ensures copy { CopyKeepsSound }
{}

/// [`crate::Row::is_same`] tells whether a step changed a row. Where a step leaves a row the same, by a test that reads no
/// contents, it leaves the very row; a row is the same as itself, so where it is not the same it has changed. A replay
/// always changes an Invalid row, and `begin` a row that takes a stamp above its own.
pub fn same_rows_are_unchanged()
    ensures each { EachIsSame }
    ensures inv { SameAfterInv }
    ensures ack { SameAfterAck }
    ensures val { SameAfterVal }
    ensures view { SameAfterView }
    ensures copy { SameAfterCopy }
    ensures replay { SameAfterReplay }
    ensures resend { ResendKeepsRow }
    ensures replayed { ReplayChanges }
    ensures begun { BeginChanges }
{}

/// A row's stamp never falls where updates begin above it: each step but `begin` leaves it or raises it, and `begin` gives
/// the row the stamp that it is passed.
pub fn stamps_never_fall()
    ensures begin { BeginTakesStamp }
    ensures replay { ReplayNeverLowers }
    ensures inv { InvNeverLowers }
    ensures ack { AckNeverLowers }
    ensures val { ValNeverLowers }
    ensures view { ViewNeverLowers }
    ensures copy { CopyNeverLowers }
    ensures resend { ResendNeverLowers }
{}

/// A call waits until it is answered. Where a sound row has a pending update with a call's reply, after a step the update
/// is pending still with its stamp and its reply, in Write or Trans, and nothing is answered; or the call is answered,
/// as was kept for it or Aborted, and the row is Valid or Invalid with no pending update. `on_copy` is left out, which
/// requires that no update is pending.
pub fn calls_wait_or_are_answered()
    ensures begin { BeginAnswersOrWaits }
    ensures replay { ReplayAnswersOrWaits }
    ensures inv { InvAnswersOrWaits }
    ensures ack { AckAnswersOrWaits }
    ensures val { ValAnswersOrWaits }
    ensures view { ViewAnswersOrWaits }
    ensures resend { ResendAnswersOrWaits }
{}

/// What a step answers was waited for: the row had a pending update with a reply of the same call. `replay` and `resend`
/// answer nothing, and `begin` its own call or nothing.
pub fn answers_were_waited_for()
    ensures inv { InvAnswersWaiting }
    ensures ack { AckAnswersWaiting }
    ensures view { ViewAnswersWaiting }
    ensures replay { ReplayAnswersNone }
    ensures resend { ResendAnswersNone }
    ensures begin { BeginAnswersOwn }
{}

/// What the table gives for steps worked by hand: a key becomes Valid only where every acknowledgement was exact; a write
/// that an INV overtakes waits in Trans, a read-modify-write is answered Aborted, and one below the row is countered;
/// an update completes at once in a view where its node is alone; and a joiner that copies a row which holds nothing has its
/// stamp, above which its own updates begin.
pub fn worked_rows()
    ensures higher { NotSettled }
    ensures exact { Settles }
    ensures trans { WaitsInTrans }
    ensures aborted { GivesUp }
    ensures countered { Counters }
    ensures alone { AloneCompletes }
    ensures gone { CopiesNothing }
{}
