// Commands of one to three words. Those of five and six stand in trace_enlist; no other line can be read.

#![tactic(auto)]

ghost use Rattle.std.specs.Prelude.{ℕ, ◌≡◌, [], ◌∷◌, MatchOption, false, true};
ghost use Rattle.rules.specs.Trace as Trace;
ghost use Rattle.rules.specs.Trace.{words_read, of_transaction, of_manager, is_number_word, value_of, two_words, three_words, vote_named, vote_line, reply_named, reply_line, ask_line};

use rules::sizes::IDENTIFIER;
use rules::{Act, Command, Event, Reply, RmId, TxId, Vote};

// Stands where a command names no transaction, or no resource manager.
const UNNAMED: [u8; IDENTIFIER] = [0; IDENTIFIER];

pub fn stepping(act: Act, tx: [u8; IDENTIFIER], rm: [u8; IDENTIFIER]) -> Command
    ensures { result ≡ Trace.stepping act tx rm }
{
    Command::Step(Event {
        tx: TxId(tx),
        rm: RmId(rm),
        act,
    })
}

fn of_transaction(act: Act, t: &[u8]) -> Option<Command>
    ensures { result ≡ of_transaction act t.now }
{
    let tx = trace_words::read_identifier(t)?;
    Some(stepping(act, tx, UNNAMED))
}

fn of_manager(r: &[u8]) -> Option<Command>
    ensures { result ≡ of_manager r.now }
{
    let rm = trace_words::read_identifier(r)?;
    Some(stepping(Act::Reenlisted, UNNAMED, rm))
}

// The act is of the number that the word names.
fn of_number<F: FnOnce(u32) -> Act>(act: F, n: &[u8]) -> Option<Command>
    requires { (k : ℕ) → F.pre act k }
    ensures { MatchOption result (is_number_word n.now ≡ false) (λ c. (is_number_word n.now ≡ true) × ((a : Act) × F.post act (value_of n.now) a × (c ≡ Trace.stepping a UNNAMED UNNAMED))) }
{
    let number = trace_words::read_number(n)?;
    Some(stepping(act(number), UNNAMED, UNNAMED))
}

#[tactic(auto, unfolding(rules::specs::Trace::words_read, rules::specs::Trace::text))]
pub fn one_word(w: &[u8]) -> Option<Command>
    ensures { result ≡ words_read (w.now ∷ []) }
{
    trace_words::is_word(w, b"restart").then_some(Command::Restart)
}

#[tactic(auto, using(crate::proofs::Commands::number_used), unfolding(rules::specs::Trace::two_words, rules::specs::Trace::text))]
pub fn two_words(w: &[u8], a: &[u8]) -> Option<Command>
    ensures { result ≡ two_words w.now a.now }
{
    if trace_words::is_word(w, b"begin") {
        return of_transaction(Act::Begin, a);
    }
    if trace_words::is_word(w, b"commit") {
        return of_transaction(Act::Commit, a);
    }
    if trace_words::is_word(w, b"rollback") {
        return of_transaction(Act::Rollback, a);
    }
    if trace_words::is_word(w, b"zdone") {
        return of_number(Act::ZeroDone, a);
    }
    if trace_words::is_word(w, b"ack") {
        return of_number(Act::Ack, a);
    }
    if trace_words::is_word(w, b"lost") {
        return of_number(Act::Lost, a);
    }
    if trace_words::is_word(w, b"reenlisted") {
        return of_manager(a);
    }
    None
}

#[tactic(auto, unfolding(rules::specs::Trace::vote_named, rules::specs::Trace::text))]
fn vote_named(v: &[u8]) -> Option<Vote>
    ensures { result ≡ vote_named v.now }
{
    if trace_words::is_word(v, b"prepared") {
        return Some(Vote::Prepared);
    }
    if trace_words::is_word(v, b"readonly") {
        return Some(Vote::ReadOnly);
    }
    if trace_words::is_word(v, b"aborted") {
        return Some(Vote::Aborted);
    }
    None
}

fn vote_line(n: &[u8], v: &[u8]) -> Option<Command>
    ensures { result ≡ vote_line n.now v.now }
{
    let vote = vote_named(v)?;
    of_number(|number| Act::Vote(number, vote), n)
}

#[tactic(auto, unfolding(rules::specs::Trace::reply_named, rules::specs::Trace::text))]
fn reply_named(r: &[u8]) -> Option<Reply>
    ensures { result ≡ reply_named r.now }
{
    if trace_words::is_word(r, b"committed") {
        return Some(Reply::Committed);
    }
    if trace_words::is_word(r, b"aborted") {
        return Some(Reply::Aborted);
    }
    if trace_words::is_word(r, b"indoubt") {
        return Some(Reply::InDoubt);
    }
    None
}

fn reply_line(n: &[u8], r: &[u8]) -> Option<Command>
    ensures { result ≡ reply_line n.now r.now }
{
    let reply = reply_named(r)?;
    of_number(|number| Act::Reply(number, reply), n)
}

fn ask_line(t: &[u8], r: &[u8]) -> Option<Command>
    ensures { result ≡ ask_line t.now r.now }
{
    let tx = trace_words::read_identifier(t)?;
    let rm = trace_words::read_identifier(r)?;
    Some(stepping(Act::Ask, tx, rm))
}

#[tactic(auto, unfolding(rules::specs::Trace::three_words, rules::specs::Trace::text))]
pub fn three_words(w: &[u8], a: &[u8], b: &[u8]) -> Option<Command>
    ensures { result ≡ three_words w.now a.now b.now }
{
    if trace_words::is_word(w, b"vote") {
        return vote_line(a, b);
    }
    if trace_words::is_word(w, b"sp") {
        return reply_line(a, b);
    }
    if trace_words::is_word(w, b"ask") {
        return ask_line(a, b);
    }
    None
}
