// What a step on a table in lent memory answers; and the events that enter something into the table: Begin and Enlist.

#![tactic(auto)]

ghost use Rattle.std.specs.Prelude.{◌≡◌, false, List, [], ℕ, eqb};
ghost use Rattle.rules.specs.Table.{place_named};
ghost use Rattle.rules.specs.Signals.{row_of};
ghost use Rattle.rules.specs.Events.{kind_of, begin_of, enlist_of};
ghost use Rattle.rules.specs.Checks.{held_already, full_for, begin_checks, enlist_checks};
ghost use Rattle.rows.specs.Memory.{table_in};
ghost use Rattle.entering.specs.StepIn.{Fine, Does, answered};

use rules::{Kind, Mark, Refusal, Signals, Transaction, TxId, transaction_state};

// What an accepted step answers beside the table, which it leaves in the memory.
#[derive(Clone, Copy)]
pub struct Answer {
    pub signals: Signals,
    pub used: u32,
}

// No signal is sent.
pub fn silent(used: u32) -> Answer
    ensures { result ≡ record { signals = row_of []; used = used } }
{
    Answer {
        signals: signals::to_none(),
        used,
    }
}

pub fn begin(
    heads: &mut [[u8; 17]; 32],
    rows: &[[u8; 24]; 128],
    capacity: u32,
    used: u32,
    id: [u8; 16],
) -> Result<Answer, Refusal>
    requires { Fine heads.old rows.now capacity used }
    ensures { (log : List ℕ) → (let tb = table_in heads.old rows.now capacity used in Does (begin_checks tb id) (begin_of id tb log) tb log (answered used result) heads.new rows.now log) }
{
    let named = lent_places::place_named(heads, id);
    let free = lent_places::place_free(heads);
    refusals::begin(id, named, free)?;
    let x = Transaction {
        id: TxId(id),
        state: transaction_state::ACTIVE,
    };
    lent_places::put_transaction(heads, free, x);
    Ok(silent(used))
}

// Whether the number is held, or the transaction at place p holds another durable one of the resource manager.
fn finds_held(rows: &[[u8; 24]; 128], p: u8, n: u32, rm: [u8; 16], kind: Kind) -> bool
    ensures { (heads : List (List ℕ)) (capacity used : ℕ) → eqb n 0 ≡ false → result ≡ held_already (table_in heads rows.now capacity used) p rm n (kind_of kind) }
{
    let e = lent_places::numbered(rows, n);
    let second = lent_counts::has_durable_of(rows, p, rm);
    refusals::is_already_held(e.number == n, second, reactions::kind_of(kind))
}

fn finds_full(rows: &[[u8; 24]; 128], p: u8) -> bool
    ensures { (heads : List (List ℕ)) (capacity used : ℕ) → result ≡ full_for (table_in heads rows.now capacity used) p }
{
    let vacant = lent_places::place_vacant(rows);
    let held = lent_counts::count_held(rows, p);
    refusals::is_full(vacant, held)
}

pub fn enlist(
    heads: &[[u8; 17]; 32],
    rows: &mut [[u8; 24]; 128],
    capacity: u32,
    used: u32,
    id: [u8; 16],
    n: u32,
    rm: [u8; 16],
    kind: Kind,
    mark: Mark,
) -> Result<Answer, Refusal>
    requires { Fine heads.now rows.old capacity used }
    ensures { (log : List ℕ) → (let tb = table_in heads.now rows.old capacity used in Does (enlist_checks tb id rm n (kind_of kind)) (enlist_of (place_named id tb) n rm kind mark tb log) tb log (answered used result) heads.now rows.new log) }
{
    let named = lent_places::place_named(heads, id);
    let x = lent_places::transaction_at(heads, named);
    let already = finds_held(rows, named, n, rm, kind);
    let full = finds_full(rows, named);
    refusals::enlist(id, rm, n, named, x.state, already, full)?;
    let entry = accepting::entry(named, x.state, n, rm, kind, mark);
    let vacant = lent_places::place_vacant(rows);
    lent_places::put_enlistment(rows, vacant, entry.enlistment);
    Ok(Answer {
        signals: entry.signals,
        used,
    })
}
