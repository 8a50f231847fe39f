ghost use Rattle.std.specs.Prelude.{◌≡◌, ℕ, ◌≤◌, true, [], length, ℤ, pos, ◌≤ℤ◌, if◌then◌else◌, nat_lt, unsigned_abs};
ghost use Rattle.linear.specs.Elimination.{entry, right_half, table_limit};
ghost use Rattle.rules.specs.Gripping.{is_loose, role};
ghost use Rattle.whole.specs.Lists.{at, tab};
ghost use Rattle.workings.specs.Shown.{shown};

use crate::workings::Workings;
use records::Role;

impl Workings {
    // How many parameters the sheet had.
    pub fn count(&self) -> usize
        ensures value { result ≡ (shown self.now).count }
        ensures most { result ≤ 48 }
    {
        self.count
    }

    // How many relations counted.
    pub fn m(&self) -> usize
        ensures value { result ≡ (shown self.now).m }
        ensures most { result ≤ 12 }
    {
        self.m
    }

    // The roles, one to a parameter.
    pub fn roles(&self) -> &[Role]
        ensures value { result.now ≡ (shown self.now).roles }
        ensures long { length result.now ≡ (shown self.now).count }
    {
        &self.roles[..self.count]
    }

    // The v(s), one to a parameter.
    pub fn shares(&self) -> &[i64]
        ensures value { result.now ≡ (shown self.now).shares }
        ensures long { length result.now ≡ (shown self.now).count }
        ensures most { (s : ℕ) → unsigned_abs (at result.now s) ≤ 12 }
    {
        &self.shares[..self.count]
    }

    // v(s), and 0 where there is no parameter s.
    pub fn share(&self, s: usize) -> i64
        ensures value { result ≡ at (shown self.now).shares s }
        ensures most { unsigned_abs result ≤ 12 }
        ensures least { is_loose (role (shown self.now).roles s) ≡ true → pos 1 ≤ℤ result }
    {
        if s < self.count { self.shares[s] } else { 0 }
    }

    // The diagonal number of row i, which is never below 0; 0 where there is no row i.
    pub fn diagonal(&self, i: usize) -> u64
        ensures value { pos result ≡ entry (shown self.now).table i i }
        ensures most { result ≤ table_limit }
    {
        if i < self.m {
            self.table.rows[i].cells[i] as u64
        } else {
            0
        }
    }

    // Row i in its last m places; nothing where there is no row i.
    pub fn right_half(&self, i: usize) -> &[i64]
        ensures value { result.now ≡ (if nat_lt i (shown self.now).m then tab (shown self.now).m (right_half (shown self.now).m (shown self.now).table i) else []) }
        ensures most { (j : ℕ) → unsigned_abs (at result.now j) ≤ table_limit }
    {
        if i < self.m {
            let rows = &self.table.rows[..];
            let cells = &rows[i].cells[..];
            &cells[self.m..self.m + self.m]
        } else {
            &[]
        }
    }
}
