// What is judged of the entries of one record, whatever is open: the record at a place of the log.

#![tactic(auto)]

ghost use Rattle.std.specs.Prelude.{◌≡◌, eqb, drop};
ghost use Rattle.lists.specs.Lists.{any, differ};
ghost use Rattle.rules.specs.Identifiers.{is_zero, same_bytes};
ghost use Rattle.rules.specs.Restart.{ascend_from, same_entry_manager};
ghost use Rattle.log_reader.specs.Reading.{entries_at};

pub fn has_zero_manager(log: &[u8], at: usize) -> bool
    ensures { result ≡ any (λ e. is_zero e.rm) (entries_at log.now at) }
{
    let count = log_reader::entries_count(log, at);
    (0..count).any(|j| identifiers::is_zero(log_reader::manager_at(log, at, j)))
}

// From zero on, so that none is zero.
pub fn numbers_ascend(log: &[u8], at: usize) -> bool
    ensures { result ≡ ascend_from 0 (entries_at log.now at) }
{
    let mut last: u32 = 0;
    for j in 0..log_reader::entries_count(log, at) {
        let number = log_reader::number_at(log, at, j);
        let above = last < number;
        if !above {
            return false;
        }
        last = number;
    }
    true
}

// Whether an entry from `from` on has this resource manager.
fn has_manager(log: &[u8], at: usize, from: u8, rm: [u8; 16]) -> bool
    ensures { result ≡ any (λ e. same_bytes e.rm rm) (drop from (entries_at log.now at)) }
{
    let count = log_reader::entries_count(log, at);
    (from..count).any(|j| identifiers::same(log_reader::manager_at(log, at, j), rm))
}

pub fn managers_differ(log: &[u8], at: usize) -> bool
    ensures { result ≡ differ same_entry_manager (entries_at log.now at) }
{
    for j in 0..log_reader::entries_count(log, at) {
        let rm = log_reader::manager_at(log, at, j);
        let again = has_manager(log, at, j + 1, rm);
        if again {
            return false;
        }
    }
    true
}

pub fn has_number(log: &[u8], at: usize, number: u32) -> bool
    ensures { result ≡ any (λ d. eqb d.number number) (entries_at log.now at) }
{
    let count = log_reader::entries_count(log, at);
    (0..count).any(|j| log_reader::number_at(log, at, j) == number)
}
