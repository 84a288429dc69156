//! What holds of every step of a node.

ghost use Rattle.hk_node.specs.Laws.{ReportsAreExact, SamePutIsIdle, StepKeepsNode, LettersInRange, ChangesOneRow, StampsNeverFall, BeginRaises, CallsAreTaken, CallsWaitOrAreAnswered, WaitingIsUntold, ToldWereWaiting, ToldInOrder};

/// A step keeps what every node keeps, and sends only letters that are in range; an event that names a key changes no
/// other row; and the stamp of a row never falls.
pub fn steps_keep_nodes()
    ensures node { StepKeepsNode }
    ensures letters { LettersInRange }
    ensures one_row { ChangesOneRow }
    ensures stamps { StampsNeverFall }
{}

/// A step reports just the rows that it changed, each with the one before. A row that a step leaves as it was may be left
/// alone where it stands.
pub fn reports_are_exact()
    ensures exact { ReportsAreExact }
    ensures same { SamePutIsIdle }
{}

/// Where a call changes its row, it began an update there: the stamp of the row is above the one before.
pub fn calls_raise_stamps()
    ensures { BeginRaises }
{}

/// A call is answered at once, or its update is pending and nothing is told. While it is pending, each step of the node
/// leaves it pending, by its stamp and with its reply, in Write or Trans, or tells the call at its key, as was kept for it
/// or Aborted, and leaves the row Valid or Invalid with no pending update. While it waits on, an event other than a call
/// tells nothing at its key.
pub fn calls_wait_or_are_answered()
    ensures taken { CallsAreTaken }
    ensures waits { CallsWaitOrAreAnswered }
    ensures untold { WaitingIsUntold }
{}

/// What an event other than a call tells was waited for: it is the call of the update that was pending at its key, and the
/// answer that was kept for it or Aborted. And whatever is told stands in key order, one reply at most for a key.
pub fn told_were_waiting()
    ensures waited { ToldWereWaiting }
    ensures order { ToldInOrder }
{}
