//! Tab stops.

ghost use Rattle.std.specs.Prelude.{◌≡◌, ◌≤◌, ◌<◌, false, length, true};
ghost use Rattle.sheet.specs.Table.{table};
ghost use Rattle.xterm_screen.specs.Picture.{KeepsTold};
ghost use Rattle.xterm_screen.specs.Tabs.{stop_after, stop_before, tab_made, tabbed, tabbed_back, tabbed_on, tabs_cleared, times};

use crate::screen::Screen;

impl Screen {
    /// HT: to the next tab stop, at most to the last column. A pending wrap stays.
    pub fn tab_forward(&mut self)
        ensures picture { self.new.picture ≡ tabbed self.old.picture }
        ensures told { KeepsTold self.old self.new }
    {
        self.column = next_stop(self.tabs.as_slice(), self.column);
    }

    /// CHT: HT `n` times.
    pub fn tab_on(&mut self, n: u16)
        ensures picture { self.new.picture ≡ tabbed_on n self.old.picture }
        ensures told { KeepsTold self.old self.new }
    {
        self.column = stop_on(self.tabs.as_slice(), self.column, n);
    }

    /// CBT: `n` times back to the stop left of the cursor, at least column 1.
    pub fn tab_back(&mut self, n: u16)
        ensures picture { self.new.picture ≡ tabbed_back n self.old.picture }
        ensures told { KeepsTold self.old self.new }
    {
        self.column = stop_back(self.tabs.as_slice(), self.column, n);
        self.wrap = false;
    }

    /// HTS: a tab stop at the cursor's column.
    pub fn set_tab(&mut self)
        ensures picture { self.new.picture ≡ tab_made true self.old.picture }
        ensures told { KeepsTold self.old self.new }
    {
        self.tabs[self.column as usize - 1] = true;
    }

    /// TBC: no tab stop at the cursor's column.
    pub fn clear_tab(&mut self)
        ensures picture { self.new.picture ≡ tab_made false self.old.picture }
        ensures told { KeepsTold self.old self.new }
    {
        self.tabs[self.column as usize - 1] = false;
    }

    /// TBC of all: no tab stop at any column.
    pub fn clear_tabs(&mut self)
        ensures picture { self.new.picture ≡ tabs_cleared self.old.picture }
        ensures told { KeepsTold self.old self.new }
    {
        put_no_tabs(self.tabs.as_mut_slice());
    }
}

/// The first stop right of a column, or the last column.
fn next_stop(tabs: &[bool], column: u16) -> u16
    requires low { 1 ≤ column }
    requires high { column ≤ length tabs.now }
    requires few { length tabs.now ≤ 1000 }
    ensures value { result ≡ stop_after tabs.now (length tabs.now) column }
    ensures low { column ≤ result }
    ensures high { result ≤ length tabs.now }
    ensures on { column < length tabs.now → column < result }
{
    let columns = tabs.len() as u16;
    for stop in column + 1..columns + 1 {
        if tabs[stop as usize - 1] {
            return stop;
        }
    }
    columns
}

/// The first stop left of a column, or column 1.
fn previous_stop(tabs: &[bool], column: u16) -> u16
    requires low { 1 ≤ column }
    requires high { column ≤ length tabs.now }
    requires few { length tabs.now ≤ 1000 }
    ensures value { result ≡ stop_before tabs.now column }
    ensures low { 1 ≤ result }
    ensures high { result ≤ column }
    ensures back { 1 < column → result < column }
{
    for steps in 1..column {
        if tabs[(column - steps) as usize - 1] {
            return column - steps;
        }
    }
    1
}

/// The next stop `n` times; at the last column the rest changes nothing.
fn stop_on(tabs: &[bool], column: u16, n: u16) -> u16
    requires low { 1 ≤ column }
    requires high { column ≤ length tabs.now }
    requires few { length tabs.now ≤ 1000 }
    ensures value { result ≡ times n (stop_after tabs.now (length tabs.now)) column }
    ensures low { 1 ≤ result }
    ensures high { result ≤ length tabs.now }
{
    let mut stop = column;
    for step in 0..n {
        if stop as usize == tabs.len() {
            return stop;
        }
        stop = next_stop(tabs, stop);
    }
    stop
}

/// The previous stop `n` times; at column 1 the rest changes nothing.
fn stop_back(tabs: &[bool], column: u16, n: u16) -> u16
    requires low { 1 ≤ column }
    requires high { column ≤ length tabs.now }
    requires few { length tabs.now ≤ 1000 }
    ensures value { result ≡ times n (stop_before tabs.now) column }
    ensures low { 1 ≤ result }
    ensures high { result ≤ length tabs.now }
{
    let mut stop = column;
    for step in 0..n {
        if stop == 1 {
            return stop;
        }
        stop = previous_stop(tabs, stop);
    }
    stop
}

/// No tab stop.
fn put_no_tabs(tabs: &mut [bool])
    ensures { tabs.new ≡ table (length tabs.old) (λ _. false) }
{
    for column in 1..tabs.len() + 1 {
        tabs[column - 1] = false;
    }
}
