// Each event on a table in lent memory, refused or done: the transaction that it is about is taken out, changed alone and put back.

#![tactic(auto)]

ghost use Rattle.std.specs.Prelude.{◌≡◌, List, map, ℕ, ◌*◌, ◌-◌, ◌≤◌, length};
ghost use Rattle.lists.specs.Lists.{count};
ghost use Rattle.rules.specs.Sizes.{held_most, record_size};
ghost use Rattle.rules.specs.Table.{place_named, held_by, held};
ghost use Rattle.rules.specs.Sound.{is_open};
ghost use Rattle.rules.specs.Events.{commit_of, abort_of, reacted_of, ask_of, reenlisted_of};
ghost use Rattle.rules.proofs.Along.{one_if};
ghost use Rattle.holdings.specs.Holdings.{alone};
ghost use Rattle.rules.specs.Checks.{commit_checks, rollback_checks, about_one_checks, ask_checks, reenlisted_checks};
ghost use Rattle.rows.specs.Memory.{enlistment_in, table_in};
ghost use Rattle.entering.specs.StepIn.{IsStepIn, Fine, Does, answered};
ghost use Rattle.events.specs.PutsBack.{PutsBack};

use endings::Accepted;
use entering::Answer;
use holdings::Holding;
use rules::{Act, Event, Name, Refusal, sizes};

// What became of a transaction and of what it holds goes back to its places.
fn put_back(heads: &mut [[u8; 17]; 32], rows: &mut [[u8; 24]; 128], done: Accepted) -> Answer
    requires { count (held_by done.holding.place) (map enlistment_in rows.old) ≤ held_most }
    ensures { PutsBack heads.old rows.old done result heads.new rows.new }
{
    lent_tables::put_back(heads, rows, done.holding);
    Answer {
        signals: done.signals,
        used: done.holding.used,
    }
}

// Commit and rollback are alike but for the check, what is done and the definitions that their contracts name.
fn commit(
    heads: &mut [[u8; 17]; 32],
    rows: &mut [[u8; 24]; 128],
    capacity: u32,
    used: u32,
    id: [u8; 16],
    log: &mut [u8],
) -> Result<Answer, Refusal>
    requires { Fine heads.old rows.old capacity used × (length log.old ≡ capacity) }
    ensures { let tb = table_in heads.old rows.old capacity used in Does (commit_checks tb id) (commit_of (place_named id tb) tb log.old) tb log.old (answered used result) heads.new rows.new log.new }
{
    let named = lent_places::place_named(heads, id);
    let x = lent_places::transaction_at(heads, named);
    refusals::commit(id, named, x.state)?;
    let h = lent_tables::take_out(heads, rows, named, 0, used);
    let done = deciding::commit(h, log);
    Ok(put_back(heads, rows, done))
}

fn rollback(
    heads: &mut [[u8; 17]; 32],
    rows: &mut [[u8; 24]; 128],
    capacity: u32,
    used: u32,
    id: [u8; 16],
    log: &mut [u8],
) -> Result<Answer, Refusal>
    requires { Fine heads.old rows.old capacity used × (length log.old ≡ capacity) }
    ensures { let tb = table_in heads.old rows.old capacity used in Does (rollback_checks tb id) (abort_of (place_named id tb) tb log.old) tb log.old (answered used result) heads.new rows.new log.new }
{
    let named = lent_places::place_named(heads, id);
    let x = lent_places::transaction_at(heads, named);
    refusals::rollback(id, named, x.state)?;
    let h = lent_tables::take_out(heads, rows, named, 0, used);
    let done = endings::abort(h, log);
    Ok(put_back(heads, rows, done))
}

// Of a transaction that is not live.
fn ask_unknown(id: [u8; 16], rm: [u8; 16], used: u32) -> Result<Answer, Refusal>
    ensures { (heads rows : List (List ℕ)) (capacity : ℕ) (log : List ℕ) → place_named id (table_in heads rows capacity used) ≡ 0
        → (let tb = table_in heads rows capacity used in Does (ask_checks tb id rm) (ask_of (place_named id tb) rm tb log) tb log (answered used result) heads rows log) }
{
    refusals::ask(id, rm, 0, true)?;
    let signals = signals::to_one(Name::AnswerAborted, 0);
    Ok(Answer { signals, used })
}

fn ask(
    heads: &mut [[u8; 17]; 32],
    rows: &mut [[u8; 24]; 128],
    capacity: u32,
    used: u32,
    id: [u8; 16],
    rm: [u8; 16],
) -> Result<Answer, Refusal>
    requires { Fine heads.old rows.old capacity used }
    ensures { (log : List ℕ) → (let tb = table_in heads.old rows.old capacity used in Does (ask_checks tb id rm) (ask_of (place_named id tb) rm tb log) tb log (answered used result) heads.new rows.new log) }
{
    let named = lent_places::place_named(heads, id);
    if named == 0 {
        return ask_unknown(id, rm, used);
    }
    let h = lent_tables::take_out(heads, rows, named, 0, used);
    let e = managers::undone(h, rm);
    refusals::ask(id, rm, h.transaction.state, e.holder == 0)?;
    let done = accepting::ask(h, rm);
    Ok(put_back(heads, rows, done))
}

// With as much of the log as the other open ones leave, of so many in all.
fn with_room(mut h: Holding, capacity: u32, opened: u8) -> Holding
    requires { record_size * opened ≤ capacity }
    ensures { result ≡ record { enlistments = h.enlistments; transaction = h.transaction; place = h.place; capacity = capacity - record_size * (opened - one_if (is_open h.transaction.state (held h.place (alone h)))); used = h.used } }
{
    let own = u8::from(holdings::is_open(h));
    let others = opened.saturating_sub(own);
    h.capacity = capacity - sizes::RECORD * u32::from(others);
    h
}

fn about_one(
    heads: &mut [[u8; 17]; 32],
    rows: &mut [[u8; 24]; 128],
    capacity: u32,
    used: u32,
    n: u32,
    act: Act,
    log: &mut [u8],
) -> Result<Answer, Refusal>
    requires { Fine heads.old rows.old capacity used × (length log.old ≡ capacity) }
    ensures { let tb = table_in heads.old rows.old capacity used in Does (about_one_checks tb n act) (reacted_of n act tb log.old) tb log.old (answered used result) heads.new rows.new log.new }
{
    let e = lent_places::numbered(rows, n);
    refusals::about_one(n, act, e)?;
    let h = lent_tables::take_out(heads, rows, e.holder, 0, used);
    let opened = lent_counts::open_count(heads, rows);
    let g = with_room(h, capacity, opened);
    let done = accepting::reacted(n, act, e.kind, e.state, g, log);
    Ok(put_back(heads, rows, done))
}

fn reenlisted(
    heads: &mut [[u8; 17]; 32],
    rows: &mut [[u8; 24]; 128],
    capacity: u32,
    used: u32,
    rm: [u8; 16],
    log: &mut [u8],
) -> Result<Answer, Refusal>
    requires { Fine heads.old rows.old capacity used × (length log.old ≡ capacity) }
    ensures { let tb = table_in heads.old rows.old capacity used in Does (reenlisted_checks tb rm) (reenlisted_of rm tb log.old) tb log.old (answered used result) heads.new rows.new log.new }
{
    let table = lent_tables::table_in(heads, rows, capacity, used);
    let elsewhere = managers::place_elsewhere(table, rm);
    refusals::reenlisted(rm, elsewhere != 0)?;
    let after = reenlisting::reenlisted(heads, rows, capacity, used, rm, log);
    Ok(entering::silent(after))
}

// Of a sound table, and a log of its capacity.
pub fn on_event(
    heads: &mut [[u8; 17]; 32],
    rows: &mut [[u8; 24]; 128],
    capacity: u32,
    used: u32,
    event: Event,
    log: &mut [u8],
) -> Result<Answer, Refusal>
    requires { Fine heads.old rows.old capacity used × (length log.old ≡ capacity) }
    ensures { IsStepIn (table_in heads.old rows.old capacity used) event log.old (answered used result) heads.new rows.new log.new }
{
    let act = event.act;
    let id = event.tx.0;
    let rm = event.rm.0;
    match act {
        Act::Begin => entering::begin(heads, rows, capacity, used, id),
        Act::Enlist(n, kind, mark) => entering::enlist(
            heads, rows, capacity, used, id, n, rm, kind, mark,
        ),
        Act::Commit => commit(heads, rows, capacity, used, id, log),
        Act::Rollback => rollback(heads, rows, capacity, used, id, log),
        Act::Ask => ask(heads, rows, capacity, used, id, rm),
        Act::Reenlisted => reenlisted(heads, rows, capacity, used, rm, log),
        Act::ZeroDone(n) | Act::Vote(n, _) | Act::Reply(n, _) | Act::Ack(n) | Act::Lost(n) => {
            about_one(heads, rows, capacity, used, n, act, log)
        }
    }
}
