// The types of the coordinator. Every rule about them stands in specs/, in the order of document 01; the only code here
// gives the numbers of kinds, marks and refusals.

#![tactic(auto)]

ghost use Rattle.std.specs.Prelude.{◌≡◌};
ghost use Rattle.rules.specs.Events.{kind_of, mark_asked};
ghost use Rattle.rules.specs.RefusalNumber.{refusal_number};

pub mod enlistment_state;
pub mod kinds;
pub mod marks;
pub mod message_type;
pub mod refusal_number;
pub mod sizes;
pub mod transaction_state;

// ---- Identifiers. Three types over 16 bytes, so that none can stand for another.

#[derive(Clone, Copy, Debug, PartialEq, Eq)]
pub struct TxId(pub [u8; 16]);

#[derive(Clone, Copy, Debug, PartialEq, Eq)]
pub struct RmId(pub [u8; 16]);

#[derive(Clone, Copy, Debug, PartialEq, Eq)]
pub struct SessionId(pub [u8; 16]);

// ---- The table. Kinds, marks and states are numbers in it, since a table may come in unsound. An empty place is all zeros.

#[derive(Clone, Copy, Debug, PartialEq, Eq)]
pub struct Transaction {
    pub id: TxId,
    pub state: u8,
}

// The number first and the bytes behind it, so that nothing pads: a table has 128 of these, and by value it is copied.
#[derive(Clone, Copy, Debug, PartialEq, Eq)]
pub struct Enlistment {
    pub number: u32,
    pub rm: RmId,
    // The place, 1 to 32, of the transaction that holds it; 0 in an empty place.
    pub holder: u8,
    pub kind: u8,
    pub mark: u8,
    pub state: u8,
}

#[derive(Clone, Copy)]
pub struct Table {
    pub transactions: [Transaction; 32],
    pub enlistments: [Enlistment; 128],
    // Of the log, in bytes.
    pub capacity: u32,
    pub used: u32,
}

// ---- Events. The identifiers stand beside the enum: definitions and checks look at each by itself.

#[derive(Clone, Copy)]
pub enum Kind {
    PhaseZero,
    Volatile,
    Durable,
}

// The number that the table holds for it.
impl From<Kind> for u8 {
    ghost from_gives = { λ k n. n ≡ kind_of k };

    fn from(kind: Kind) -> u8 {
        match kind {
            Kind::PhaseZero => kinds::PHASE_ZERO,
            Kind::Volatile => kinds::VOLATILE,
            Kind::Durable => kinds::DURABLE,
        }
    }
}

// The single-phase mark.
#[derive(Clone, Copy)]
pub enum Mark {
    No,
    Yes,
}

// The number that the table holds for it.
impl From<Mark> for u8 {
    ghost from_gives = { λ m n. n ≡ mark_asked m };

    fn from(mark: Mark) -> u8 {
        match mark {
            Mark::No => marks::NO,
            Mark::Yes => marks::YES,
        }
    }
}

#[derive(Clone, Copy)]
pub enum Vote {
    Prepared,
    ReadOnly,
    Aborted,
}

// To single.
#[derive(Clone, Copy)]
pub enum Reply {
    Committed,
    Aborted,
    InDoubt,
}

// A number is an enlistment's.
#[derive(Clone, Copy)]
pub enum Act {
    Begin,
    Enlist(u32, Kind, Mark),
    Commit,
    ZeroDone(u32),
    Vote(u32, Vote),
    Rollback,
    Reply(u32, Reply),
    Ack(u32),
    Lost(u32),
    Ask,
    Reenlisted,
}

// An act that names no transaction, or no resource manager, does not look at that identifier.
#[derive(Clone, Copy)]
pub struct Event {
    pub tx: TxId,
    pub rm: RmId,
    pub act: Act,
}

// ---- Signals.

#[derive(Clone, Copy)]
pub enum Name {
    // Of a place in the row that holds no signal.
    Nothing,
    Zero,
    Prepare,
    Single,
    Commit,
    Abort,
    AppCommitted,
    AppAborted,
    AppInDoubt,
    AnswerCommitted,
    AnswerAborted,
    AnswerNotYet,
}

// The number of the enlistment that it goes to, or that it answers about; 0 for the application and for answer-aborted.
#[derive(Clone, Copy)]
pub struct Signal {
    pub name: Name,
    pub number: u32,
}

// The first count of the items are the signals, in their order; the others hold none.
#[derive(Clone, Copy)]
pub struct Signals {
    pub items: [Signal; 17],
    pub count: u8,
}

// ---- What an event about one enlistment does: to it, and then to its transaction.

#[derive(Clone, Copy)]
pub enum FollowUp {
    Nothing,
    // If no phase-zero enlistment is left.
    StartPhaseOne,
    // If none is Preparing.
    Decide,
    // If all are Done.
    End,
    Abort,
    // Single phase is over, and the application is told this.
    EndWith(Name),
}

#[derive(Clone, Copy)]
pub enum Reaction {
    Refused,
    Freed(FollowUp),
    // The enlistment's next state.
    Becomes(u8, FollowUp),
}

// ---- Refusals, in the order of their numbers.

#[derive(Clone, Copy, Debug, PartialEq, Eq)]
pub enum Refusal {
    // A named identifier or number is zero.
    ZeroNamed,
    NotLive,
    NotHeld,
    // Begin of a live transaction.
    AlreadyLive,
    // Enlist: number held, or second durable of this resource manager in the transaction.
    AlreadyHeld,
    // Enlist, Commit, Rollback.
    TransactionState,
    EnlistmentState,
    // No free place, or the transaction holds 16; listing: too few rows.
    Full,
    // Ask.
    NoSuchDurable,
    // Re-enlisted: a durable enlistment of it that isn't Done stands elsewhere than in Failed-to-notify.
    NotFailedToNotify,
    // Restart.
    DamagedLog,
    // The lent log's length differs from capacity.
    LogLength,
    // Restart.
    LogTooShort,
    // Bad message, or the writer's room below the message length.
    BadMessage,
    // Table not sound: step, listing.
    NotSound,
    // Trace line that can't be read.
    UnreadableLine,
}

// The number that document 01 gives; 0 is done, and no refusal has it.
impl From<Refusal> for u8 {
    ghost from_gives = { λ r n. n ≡ refusal_number r };

    fn from(refusal: Refusal) -> u8 {
        match refusal {
            Refusal::ZeroNamed => refusal_number::ZERO_NAMED,
            Refusal::NotLive => refusal_number::NOT_LIVE,
            Refusal::NotHeld => refusal_number::NOT_HELD,
            Refusal::AlreadyLive => refusal_number::ALREADY_LIVE,
            Refusal::AlreadyHeld => refusal_number::ALREADY_HELD,
            Refusal::TransactionState => refusal_number::TRANSACTION_STATE,
            Refusal::EnlistmentState => refusal_number::ENLISTMENT_STATE,
            Refusal::Full => refusal_number::FULL,
            Refusal::NoSuchDurable => refusal_number::NO_SUCH_DURABLE,
            Refusal::NotFailedToNotify => refusal_number::NOT_FAILED_TO_NOTIFY,
            Refusal::DamagedLog => refusal_number::DAMAGED_LOG,
            Refusal::LogLength => refusal_number::LOG_LENGTH,
            Refusal::LogTooShort => refusal_number::LOG_TOO_SHORT,
            Refusal::BadMessage => refusal_number::BAD_MESSAGE,
            Refusal::NotSound => refusal_number::NOT_SOUND,
            Refusal::UnreadableLine => refusal_number::UNREADABLE_LINE,
        }
    }
}

// ---- Answers.

// Of an accepted step: the table first, so that it is put where it stays.
#[derive(Clone, Copy)]
pub struct Stepped {
    pub table: Table,
    pub signals: Signals,
}

#[derive(Clone, Copy)]
pub struct Restarted {
    // 0 is done.
    pub refusal: u8,
    pub table: Table,
}

// The number to be given next; 0 once all are given.
#[derive(Clone, Copy)]
pub struct Dispenser {
    pub next: u32,
}

#[derive(Clone, Copy)]
pub struct Taken {
    pub number: u32,
    pub dispenser: Dispenser,
}

#[derive(Clone, Copy)]
pub struct Row {
    pub id: TxId,
    pub state: u8,
    pub held: u8,
    // How many of the held are not Done.
    pub undone: u8,
}

// ---- Messages. A field that the message's type does not have is zero.

#[derive(Clone, Copy)]
pub struct Message {
    // fIsMaster: 0 or 1.
    pub master: u32,
    pub connection: u32,
    // Document 01's 'type', which is a word of the language.
    pub kind: u32,
    pub reserved: u32,
    pub tx: TxId,
    pub rm: RmId,
    pub session: SessionId,
}

// ---- A line of the trace program.

#[derive(Clone, Copy)]
pub enum Command {
    // With the used bytes as stored.
    Restart,
    Step(Event),
}
