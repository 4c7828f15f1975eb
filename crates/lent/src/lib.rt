// Lists that a caller lends, and when a call over them is refused: 6 miscalled, 7 miscut, 8 disordered.
#![tactic(auto)]

ghost use Rattle.std.specs.Prelude.{◌≡◌, false, ◌-◌, ◌<◌, [], length, get_or, IfOk};
ghost use Rattle.stretches.specs.Front.{nth};
ghost use Rattle.stretches.specs.Taking.{total};
ghost use Rattle.stretches.specs.Lent.{pairs, lists_of};
ghost use Rattle.stretches.specs.inner.Starts.{start_of};
ghost use Rattle.meaning.specs.Refusals.{refused, takes_lists, takes_bound, miscalled, miscalled_taking, miscut, disordered_list, disordered, lowest, lists_refusal, taking_refusal};
ghost use Rattle.meaning.specs.Replies.{signal};

use basics::wide;
use meaning::Refusal;
use std::marker::Model;
use stretches::Stretch;

// Lent lists that are not refused: the items, and the place where each list ends.
#[derive(Drop)]
pub struct Lists<'a> {
    items: &'a [u32],
    ends: &'a [u32],
}

impl<'a> Model for Lists<'a> {
    ghost use Rattle.std.specs.Prelude.{◌≡◌, List, false};
    ghost use Rattle.stretches.specs.declared.Stretch.{Stretch};
    ghost use Rattle.stretches.specs.Lent.{lists_of};
    ghost use Rattle.meaning.specs.Refusals.{miscut, disordered};

    ghost Value = { List (List Stretch) };

    ghost view = { λ s. lists_of s.items.now s.ends.now };

    ghost invariant = { λ s. (miscut s.items.now s.ends.now ≡ false) × (disordered (lists_of s.items.now s.ends.now) ≡ false) };
}

impl<'a> Lists<'a> {
    // The lists of a call, given whether it is miscalled.
    fn accepted(wrong: bool, items: &'a [u32], ends: &'a [u32]) -> Result<Lists<'a>, Refusal>
        ensures refusal { signal result ≡ refused (lowest wrong items.now ends.now) 0 }
        ensures lists { IfOk result (λ ls. ls ≡ lists_of items.now ends.now) }
    {
        if wrong {
            return Err(Refusal::Miscalled);
        }
        if miscut(items, ends) {
            return Err(Refusal::Miscut);
        }
        if disordered(items, ends) {
            return Err(Refusal::Disordered);
        }
        Ok(Lists { items, ends })
    }

    // How many they are.
    pub fn len(&self) -> usize
        ensures number { result ≡ length self.now }
        ensures order { disordered self.now ≡ false }
    {
        self.ends.len()
    }

    // How many stretches they have.
    pub fn total(&self) -> usize
        ensures { result ≡ total self.now }
    {
        self.items.len() / 2
    }

    // List i, starts and ends in turn.
    fn list(&self, i: usize) -> &'a [u32]
        requires { i < length self.now }
        ensures { pairs result.now ≡ get_or self.now i [] }
    {
        &self.items[start_of(self.ends, i)..wide(self.ends[i])]
    }

    // The last of the first `count` stretches of list i; none past its end, and where there is no list i.
    pub fn taken(&self, i: usize, count: u32) -> Option<Stretch>
        ensures { result ≡ nth (get_or self.now i []) (count - 1) }
    {
        if self.len() <= i {
            return None;
        }
        let list = self.list(i);
        let at = 2 * wide(count.saturating_sub(1));
        Some(Stretch {
            start: *list.get(at)?,
            end: *list.get(at + 1)?,
        })
    }
}

// The place where list i starts.
fn start_of(ends: &[u32], i: usize) -> usize
    requires { i < length ends.now }
    ensures { result ≡ start_of ends.now i }
{
    if i == 0 { 0 } else { wide(ends[i - 1]) }
}

// Whether the operator takes n lists.
fn takes_lists(op: u32, n: usize) -> bool
    ensures { result ≡ takes_lists op n }
{
    match op {
        6 => n == 1,
        5 | 7.. => n == 2,
        _ => (2..=31).contains(&n),
    }
}

// Whether the operator takes the bound k.
fn takes_bound(op: u32, k: u32) -> bool
    ensures { result ≡ takes_bound op k }
{
    if op == 6 {
        (1..=65535).contains(&k)
    } else {
        k == 0
    }
}

// 6 for the filling call.
fn miscalled(op: u32, k: u32, ends: &[u32]) -> bool
    ensures { result ≡ miscalled op k ends.now }
{
    !(1..=9).contains(&op) || !takes_lists(op, ends.len()) || !takes_bound(op, k)
}

// 6 for the taking call.
fn miscalled_taking(op: u32, ends: &[u32], counts: &[u32]) -> bool
    ensures { result ≡ miscalled_taking op ends.now counts.now }
{
    !(1..=2).contains(&op) || !takes_lists(op, ends.len()) || counts.len() < ends.len()
}

// 7.
fn miscut(items: &[u32], ends: &[u32]) -> bool
    ensures { result ≡ miscut items.now ends.now }
{
    let mut at = 0;
    for end in ends {
        let end = wide(*end);
        if end % 2 != 0 || end < at {
            return true;
        }
        at = end;
    }
    at != items.len()
}

// 8 for a list: a is one past the start before, b one past the end before.
fn list_disordered(list: &[u32]) -> bool
    ensures { result ≡ disordered_list (pairs list.now) }
{
    let mut a = 0;
    let mut b = 0;
    let mut left = list;
    while let [start, end, rest @ ..] = left {
        let s = wide(*start);
        let e = wide(*end);
        if e < s || 65535 < e || s < a || e < b {
            return true;
        }
        a = s + 1;
        b = e + 1;
        left = rest;
    }
    false
}

// 8, where the cut is right.
fn disordered(items: &[u32], ends: &[u32]) -> bool
    requires { miscut items.now ends.now ≡ false }
    ensures { result ≡ disordered (lists_of items.now ends.now) }
{
    let mut at = 0;
    for end in ends {
        let end = wide(*end);
        if list_disordered(&items[at..end]) {
            return true;
        }
        at = end;
    }
    false
}

// The lists of a filling call, or why it is refused.
#[tactic(auto, unfolding(meaning::specs::Refusals::lists_refusal))]
pub fn refusal<'a>(op: u32, k: u32, items: &'a [u32], ends: &'a [u32]) -> Result<Lists<'a>, Refusal>
    ensures refusal { signal result ≡ refused (lists_refusal op k items.now ends.now) 0 }
    ensures lists { IfOk result (λ ls. ls ≡ lists_of items.now ends.now) }
{
    Lists::accepted(miscalled(op, k, ends), items, ends)
}

// The lists of a taking call, or why it is refused.
#[tactic(auto, unfolding(meaning::specs::Refusals::taking_refusal))]
pub fn taking_refusal<'a>(
    op: u32,
    items: &'a [u32],
    ends: &'a [u32],
    counts: &[u32],
) -> Result<Lists<'a>, Refusal>
    ensures refusal { signal result ≡ refused (taking_refusal op items.now ends.now counts.now) 0 }
    ensures lists { IfOk result (λ ls. ls ≡ lists_of items.now ends.now) }
{
    Lists::accepted(miscalled_taking(op, ends, counts), items, ends)
}
