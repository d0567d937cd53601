// Commands of five and six words, which enlist; the sixth is the single-phase mark.

#![tactic(auto)]

ghost use Rattle.std.specs.Prelude.{◌≡◌, [], ◌∷◌};
ghost use Rattle.rules.specs.Trace.{words_read, kind_named, mark_named, enlist_marked};

use rules::{Act, Command, Kind, Mark};

#[tactic(auto, unfolding(rules::specs::Trace::kind_named, rules::specs::Trace::text))]
fn kind_named(k: &[u8]) -> Option<Kind>
    ensures { result ≡ kind_named k.now }
{
    if trace_words::is_word(k, b"zero") {
        return Some(Kind::PhaseZero);
    }
    if trace_words::is_word(k, b"volatile") {
        return Some(Kind::Volatile);
    }
    if trace_words::is_word(k, b"durable") {
        return Some(Kind::Durable);
    }
    None
}

#[tactic(auto, unfolding(rules::specs::Trace::mark_named, rules::specs::Trace::text))]
fn mark_named(m: &[u8]) -> Option<Mark>
    ensures { result ≡ mark_named m.now }
{
    if trace_words::is_word(m, b"single") {
        return Some(Mark::Yes);
    }
    if trace_words::is_word(m, b"twophase") {
        return Some(Mark::No);
    }
    None
}

fn enlist_marked(t: &[u8], n: &[u8], r: &[u8], k: &[u8], mark: Mark) -> Option<Command>
    ensures { result ≡ enlist_marked t.now n.now r.now k.now mark }
{
    let kind = kind_named(k)?;
    let tx = trace_words::read_identifier(t)?;
    let number = trace_words::read_number(n)?;
    let rm = trace_words::read_identifier(r)?;
    let act = Act::Enlist(number, kind, mark);
    Some(trace_commands::stepping(act, tx, rm))
}

#[tactic(auto, unfolding(rules::specs::Trace::words_read, rules::specs::Trace::enlist_line, rules::specs::Trace::text))]
pub fn five_words(w: &[u8], t: &[u8], n: &[u8], r: &[u8], k: &[u8]) -> Option<Command>
    ensures { result ≡ words_read (w.now ∷ t.now ∷ n.now ∷ r.now ∷ k.now ∷ []) }
{
    if !trace_words::is_word(w, b"enlist") {
        return None;
    }
    enlist_marked(t, n, r, k, Mark::Yes)
}

#[tactic(auto, unfolding(rules::specs::Trace::words_read, rules::specs::Trace::enlist_line_marked, rules::specs::Trace::text))]
pub fn six_words(w: &[u8], t: &[u8], n: &[u8], r: &[u8], k: &[u8], m: &[u8]) -> Option<Command>
    ensures { result ≡ words_read (w.now ∷ t.now ∷ n.now ∷ r.now ∷ k.now ∷ m.now ∷ []) }
{
    if !trace_words::is_word(w, b"enlist") {
        return None;
    }
    let mark = mark_named(m)?;
    enlist_marked(t, n, r, k, mark)
}
