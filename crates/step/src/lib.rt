// A step: refused, or done.

#![tactic(auto)]

ghost use Rattle.std.specs.Prelude.{◌≡◌};
ghost use Rattle.rules.specs.Table.{fresh_of};
ghost use Rattle.rules.specs.Sound.{sound_of};
ghost use Rattle.rules.specs.Step.{IsStep, stepped_of};
ghost use Rattle.rows.specs.Memory.{table_in};
ghost use Rattle.entering.specs.StepIn.{IsStepIn, answered};

use entering::Answer;
use rules::{Event, Refusal, Stepped, Table};

// A table whose log holds the header alone.
pub fn fresh(capacity: u32) -> Table
    ensures { result ≡ fresh_of capacity }
{
    places::fresh(capacity)
}

pub fn is_sound(table: Table) -> bool
    ensures { result ≡ sound_of table }
{
    sound::is_sound(table)
}

// For a caller that keeps the table in memory, and knows whether it is sound.
pub fn step_in(
    heads: &mut [[u8; 17]; 32],
    rows: &mut [[u8; 24]; 128],
    capacity: u32,
    used: u32,
    sound: bool,
    event: Event,
    log: &mut [u8],
) -> Result<Answer, Refusal>
    requires { sound ≡ sound_of (table_in heads.old rows.old capacity used) }
    ensures { IsStepIn (table_in heads.old rows.old capacity used) event log.old (answered used result) heads.new rows.new log.new }
{
    refusals::first(sound, log.len(), capacity)?;
    events::on_event(heads, rows, capacity, used, event, log)
}

pub fn step(table: Table, event: Event, log: &mut [u8]) -> Result<Stepped, Refusal>
    ensures { IsStep table event log.old (stepped_of table result) log.new }
{
    let sound = sound::is_sound(table);
    let mut heads = [[0u8; 17]; 32];
    let mut rows = [[0u8; 24]; 128];
    lent_tables::heads_of(table.transactions, &mut heads);
    lent_tables::rows_of(table.enlistments, &mut rows);
    let capacity = table.capacity;
    let answer = step_in(
        &mut heads, &mut rows, capacity, table.used, sound, event, log,
    )?;
    let after = lent_tables::table_in(&heads, &rows, capacity, answer.used);
    Ok(Stepped {
        table: after,
        signals: answer.signals,
    })
}
