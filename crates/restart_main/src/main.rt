// Restarts over stored logs. For each: the refusal, used, how many bytes of the log changed, the number that the dispenser gives first, and the table:
// a transaction as its last byte and state, and behind it its enlistments as number/resource manager/kind/mark/state. Last the listing.

#![tactic(auto)]

mod logs;
mod shown;

use logs::Made;

fn main() {
    headers();
    wrong_headers();
    capacities();
    large(65536);
    large(65537);
    beginnings();
    zeros();
    open_or_not();
    numbers_and_managers();
    torn();
    full();
    order();
    four();
    most_open();
    most_entries();
    many();
}

// 0xEE in the place of each byte of the header from the n-th on.
fn spoilt(n: u8) -> Made {
    let mut made = logs::empty();
    for i in n..8 {
        made = logs::with_byte(made, i as usize, 0xEE);
    }
    made
}

// The first n bytes of the header alone.
fn begun(n: u8) {
    let made = spoilt(n);
    shown::say(b"header ");
    shown::restarted(made, n as u64, 64, n as usize);
}

fn headers() {
    for n in 0..=8 {
        begun(n);
    }
}

// One wrong byte in the header: all of it stored, and stored to that byte.
fn wrong(i: u8) {
    let made = logs::empty();
    let other = logs::with_byte(made, i as usize, 9);
    shown::say(b"wrong header byte ");
    shown::restarted(other, i as u64, 64, 8);
    shown::say(b"wrong and short ");
    shown::restarted(other, i as u64, 64, (i as usize) + 1);
}

fn wrong_headers() {
    for i in 0..8 {
        wrong(i);
    }
}

fn small(case: u64, capacity: usize, stored: usize) {
    let made = logs::empty();
    shown::restarted(made, case, capacity, stored);
}

fn capacities() {
    shown::say(b"capacity ");
    small(7, 7, 0);
    shown::say(b"capacity ");
    small(8, 8, 0);
    shown::say(b"stored above ");
    small(9, 8, 9);
}

fn large(capacity: u32) {
    let mut log = [0u8; 65537];
    shown::say(b"capacity ");
    shown::outcome(&mut log, capacity as u64, capacity as usize, 0);
}

// The bytes that no record begins with, and those that one does: n of them are stored.
fn beginning(a: u8, b: u8, n: u16) {
    let made = logs::empty();
    let first = logs::with_byte(made, 8, a);
    let both = logs::with_byte(first, 9, b);
    shown::say(b"first ");
    shown::restarted(both, a as u64, 400, 8 + (n as usize));
}

fn beginnings() {
    beginning(0, 0, 1);
    beginning(1, 0, 1);
    beginning(2, 0, 1);
    beginning(3, 0, 1);
    beginning(255, 0, 1);
    beginning(0, 1, 2);
    beginning(1, 0, 2);
    beginning(1, 1, 2);
    beginning(1, 16, 2);
    beginning(1, 17, 2);
    beginning(2, 0, 2);
    beginning(2, 1, 2);
    beginning(3, 0, 2);
    beginning(1, 16, 338);
}

// Stored to its end.
fn judged(made: Made) {
    let end = made.end;
    shown::restarted(made, end as u64, 4096, end);
}

// The commit record of 7, with the numbers 1 and 2 and the resource managers 21 and 22.
fn seven() -> Made {
    let made = logs::empty();
    logs::with_commit(made, 7, 2, 1, 21)
}

// A commit record of t with two entries, numbers from first on and resource managers 21 and 22; one byte is then put otherwise.
fn two(t: u8, first: u32, at: usize, b: u8) {
    let made = logs::empty();
    let one = logs::with_commit(made, t, 2, first, 21);
    let other = logs::with_byte(one, at, b);
    judged(other);
}

fn zeros() {
    shown::say(b"fine ");
    two(7, 1, 8, 1);
    shown::say(b"zero transaction ");
    two(0, 1, 8, 1);
    shown::say(b"zero manager ");
    two(7, 1, 41, 0);
    shown::say(b"zero number ");
    two(7, 0, 8, 1);
}

// Behind the commit record of 7: another, or a forget record.
fn committed(t: u8, first: u32) {
    let made = seven();
    let last = logs::with_commit(made, t, 2, first, 21);
    judged(last);
}

fn forgotten(t: u8) {
    let made = seven();
    let last = logs::with_forget(made, t);
    judged(last);
}

fn forgotten_twice() {
    let made = seven();
    let once = logs::with_forget(made, 7);
    let twice = logs::with_forget(once, 7);
    judged(twice);
}

// The two transactions differ in the first byte alone.
fn committed_another() {
    let made = seven();
    let both = logs::with_commit(made, 7, 2, 3, 21);
    let other = logs::with_byte(both, 68, 1);
    judged(other);
}

fn open_or_not() {
    shown::say(b"commit of an open one ");
    committed(7, 3);
    shown::say(b"forget of one not open ");
    forgotten(8);
    shown::say(b"forget of zero ");
    forgotten(0);
    shown::say(b"forgotten twice ");
    forgotten_twice();
    shown::say(b"another with the same last byte ");
    committed_another();
}

// Three entries, the third with the resource manager of the first.
fn first_manager_again() {
    let made = logs::empty();
    let three = logs::with_commit(made, 7, 3, 1, 21);
    let other = logs::with_byte(three, 81, 21);
    judged(other);
}

fn numbers_and_managers() {
    shown::say(b"not ascending ");
    two(7, 1, 42, 3);
    shown::say(b"the same number again ");
    two(7, 1, 62, 1);
    shown::say(b"number of another open record ");
    committed(8, 2);
    shown::say(b"a manager twice ");
    two(7, 1, 61, 21);
    shown::say(b"the first manager again ");
    first_manager_again();
}

// The first commit record is whole; then a commit record and a forget record, of which the first n bytes of the log are stored.
fn cut(n: u8) {
    let made = seven();
    let one = logs::with_commit(made, 8, 2, 3, 21);
    let last = logs::with_forget(one, 7);
    shown::say(b"cut at ");
    shown::restarted(last, n as u64, 4096, n as usize);
}

fn torn() {
    for n in 66..=142 {
        cut(n);
    }
}

// A commit record, and the forget record behind it as far as it is stored.
fn limited(capacity: u8, stored: u8) {
    let made = seven();
    let last = logs::with_forget(made, 7);
    shown::restarted(last, capacity as u64, capacity as usize, stored as usize);
}

// A byte that no record begins with, where there is no room for the forget record.
fn damaged() {
    let made = seven();
    let other = logs::with_byte(made, 66, 3);
    shown::restarted(other, 67, 67, 67);
}

fn full() {
    shown::say(b"room for its forget record ");
    limited(84, 66);
    shown::say(b"one byte too few ");
    limited(83, 66);
    shown::say(b"no room at all ");
    limited(66, 66);
    shown::say(b"exactly full ");
    limited(84, 84);
    shown::say(b"torn and full ");
    limited(83, 83);
    shown::say(b"torn with room ");
    limited(84, 83);
    shown::say(b"damaged and full ");
    damaged();
}

// Reopened transactions, and numbers used again: eight records, stored up to the end of one of them.
fn stored_to(end: usize) {
    let made = seven();
    let five = logs::with_commit(made, 5, 1, 3, 21);
    let ended = logs::with_forget(five, 7);
    let six = logs::with_commit(ended, 6, 2, 1, 31);
    let again = logs::with_commit(six, 7, 1, 9, 21);
    let without = logs::with_forget(again, 6);
    let eight = logs::with_commit(without, 8, 1, 4294967295, 21);
    let last = logs::with_forget(eight, 8);
    shown::restarted(last, end as u64, 4096, end);
}

fn order() {
    shown::say(b"two are open ");
    stored_to(104);
    shown::say(b"one is left ");
    stored_to(122);
    shown::say(b"numbers again ");
    stored_to(180);
    shown::say(b"reopened ");
    stored_to(218);
    shown::say(b"the middle one ends ");
    stored_to(236);
    shown::say(b"largest number ");
    stored_to(274);
    shown::say(b"and forgotten ");
    stored_to(292);
}

// So many open transactions, from 1 on, each with so many entries; the numbers go up from 1 over all of them.
fn opened(transactions: u8, each: u8) -> Made {
    let mut made = logs::empty();
    let mut number: u32 = 1;
    for t in 1..=transactions {
        made = logs::with_commit(made, t, each, number, 1);
        number = logs::up(number, each);
    }
    made
}

// Behind them the forget record of the first.
fn first_ended(made: Made) {
    let last = logs::with_forget(made, 1);
    judged(last);
}

fn four() {
    let made = opened(4, 1);
    shown::say(b"the first one ends ");
    first_ended(made);
}

fn most_open() {
    let made = opened(32, 1);
    shown::say(b"open ");
    judged(made);
    let more = opened(33, 1);
    shown::say(b"open ");
    judged(more);
    shown::say(b"open and the first ends ");
    first_ended(more);
}

fn most_entries() {
    let made = opened(8, 16);
    shown::say(b"entries ");
    judged(made);
    let more = logs::with_commit(made, 200, 1, 129, 1);
    shown::say(b"entries ");
    judged(more);
    shown::say(b"entries and the first ends ");
    first_ended(more);
}

// Closed records nearly to the end of the largest log, and an open one behind them.
fn many() {
    let mut log = [0u8; 65536];
    logs::header(&mut log);
    let mut end: usize = 8;
    for _ in 0..1161 {
        let next = logs::commit(&mut log, end, 7, 1, 1, 21);
        end = logs::forget(&mut log, next, 7);
    }
    end = logs::commit(&mut log, end, 7, 16, 1, 21);
    shown::say(b"many closed ");
    shown::outcome(&mut log, end as u64, 65536, end);
}
